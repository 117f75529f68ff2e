//! The options of the program.
ghost use Rattle.std.specs.Prelude.{◌≡◌, IfOk, IfSome, map, codes, false, option_map};
ghost use Rattle.clap.specs.Words.{app_of, fault_of, found_of, matches_of, first_of, one_of, rows_of, rule_of};
ghost use Rattle.clap.specs.Kinds.{FailsBy};
ghost use Rattle.hlr.specs.Options.{journal_rule, parts_rule, snapshot_rule, threads_rule, zone_rule, program, Spells, Tells, OptionsOf, InRange};

use clap::builder::ValueParser;
use clap::{Arg, ArgAction, ArgMatches, Command, Error};
use part_table::{MOST_PARTS, can_open};
use std::alloc::{AllocError, Global};
use tatp_rows::GREATEST_WIDTH;

/// The version that `--version` prints.
const VERSION: &str = "0.5.0";

/// The most MB that `--snapshot-at` may give, which are a terabyte.
const GREATEST_SNAPSHOT_AT: u32 = 1_048_576;

/// What the program is, in the first line of `--help`.
const ABOUT: &str =
    "A home location register (HLR). It reads commands as CSV, and writes a reply to each one.";

/// What the program reads and writes, with two examples: the text of `--help` behind the options.
const FORMATS: &str = "\
Standard input is CSV without a header row. Each record is a command, and its reply is written to standard output
before the program waits for more input. These are the commands, each with its reply behind the colon:

  sub,S,N,BITS,HEXES,BYTES,M,V   adds the subscriber S, 1 to 16777216, with the number N of 15 digits: ok
  acc,S,A,D,E,C,B                adds an access of type A: ok
  fac,S,F,I,E,D,B                adds a facility of type F: ok
  gsd,S                          reads a subscriber: subscriber,S,N,BITS,HEXES,BYTES,M,V
  gnd,S,F,T,U                    reads the numbers of the forwardings that start by T and end after U: numbers,N,..
  gad,S,A                        reads an access: access,D,E,C,B
  usd,S,F,I,D                    sets the first of BITS to I and D of the facility, or neither: ok
  ul,N,V                         sets the location V of the subscriber with the number N: ok
  icf,N,F,T,U,X                  adds a forwarding to the number X, from the hour T to the hour U: ok
  dcf,N,F,T                      removes the forwarding that starts at T: ok
  active,S,F,I                   switches a facility and all its forwardings on (I is 1) or off (I is 0): ok
  number,S,N                     gives a subscriber another number: ok
  post,P,L                       publishes the first L unposted cells of the part P: posted,CELLS
  give,P,high,S                  cuts the subscribers from S on off the part P, as a loose piece K: piece,K,FROM,TO
  give,P,low,S                   does the same with the subscribers below S: piece,K,FROM,TO
  take,K,P                       joins the loose piece K to the part P next to it: taken,K,P
  divide,P,S                     makes a new part Q, P + 1, of the part P's subscribers from S on: divided,Q,FROM,TO
  dissolve,P                     joins the part P to the part Q in front of it, P - 1: dissolved,Q,FROM,TO
  views                          shows the counts that aren't 0: lines cell,CELL,PUBLISHED,UNPOSTED, then views,LINES
  scan                           counts all rows anew: lines cell,CELL,COUNT, then scan,LINES
  index                          shows all numbers in order: lines number,N,S, then index,LINES
  regions                        shows all ranges: lines part,P,FROM,TO and piece,K,FROM,TO, then regions,LINES
  propose                        shows bounds that would share the published rows evenly: bounds,S,..
  recut,S,..                     moves the bounds between the parts to these: recut,MOVES

BITS are 10 digits 0 or 1, HEXES are 10 hexadecimal digits, and BYTES are 20. The locations M and V are 1 to
4294967295. The types A and F are 1 to 4, D and E are 0 to 255, and I is 0 or 1. The hour T is 0, 8 or 16, and the
hour U is 1 to 24. X is a number like N, C is three letters A to Z, and B is five.

A run starts without subscribers and keeps none, except with --journal. It ends with its input, or after 1048576
records. A blank line gets no reply. The reply to a record that isn't a command, or can't be done, is
refused,CODE,NAME, with one of these:

  1 Memory          2 Field           3 NoSubscriber    4 NoNumber        5 NoAccess        6 NoFacility
  7 NoForwarding    8 NoDestination   9 Exists         10 NumberTaken    11 Moving         12 NoPart
 13 NoPiece        14 OutOfRange     15 NotAdjacent    16 ManyPieces     17 Worn           19 Syntax
 22 ManyParts

The codes 18 Thread, 20 Read and 21 Write belong to faults that end a run, and are never replies.

Each CELL is one live count. The cells 0 to 23 count the forwardings of active facilities by hour: those with
T <= CELL < U. The cells 24 to 39 count the subscribers by area, each one in cell 24 + V / 268435456. The cells 40
to 71 count the rows of all four tables by zone, each one in cell 40 + (S - 1) / W, where --zone gives W, or in cell 71
if that is more.

The subscribers are shared among 1 to 16 parts, which are numbered from 0. Each part has the subscribers from FROM on
and below TO, and publishes their counts. What a part gives away is a loose piece until a part next to it takes it.
Until then, commands for its subscribers get the reply refused,11,Moving. A bound S between two parts is the first
subscriber of the second one. When a part is divided or dissolved, the numbers of all later parts rise or fall by one.
What a dissolved part had published is taken back, and is unposted in the part that gets its subscribers.

With --journal, each change of a row is on the disk before its reply is written, and a later run with the same file
begins with these rows. It opens the parts that --parts gives, and nothing is published at first. Only one process can
use a file at a time, and --threads can't be used with it. A journal that has grown to the megabytes of --snapshot-at
gives way to a short one with the same rows, for which replies wait meanwhile.

Because propose only places bounds between zones, set --zone to your highest S divided by 32, rounded up. Because it
counts only what is published, post every part first.

Examples:

Add a subscriber, and read it:

  $ printf 'sub,7,000000000000007,0000000000,0000000000,00000000000000000000,1,5\\ngsd,7\\n' | hlr
  ok
  subscriber,7,000000000000007,0000000000,0000000000,00000000000000000000,1,5

Add a subscriber to the first of two parts, publish its counts, and show them:

  $ printf 'sub,7,000000000000007,0000000000,0000000000,00000000000000000000,1,5\\npost,0,72\\nviews\\n' | hlr --parts 2
  ok
  posted,2
  cell,24,1,0
  cell,40,1,0
  views,2

The status is 0, or 1 after 'hlr: no memory', 'hlr: no thread', 'hlr: read fault' or 'hlr: write fault', or 2 if an
option is wrong. Of a journal, the line of a fault says what to do.";

/// The options of the program.
#[derive(Clone, Copy, Debug, PartialEq, Eq)]
pub struct Options<'a> {
    /// How many parts share the subscribers at first, 1..=16.
    pub parts: u8,
    /// How many subscribers a zone has, 1..=524,288.
    pub width: u32,
    /// Whether parts work in threads of their own.
    pub threads: bool,
    /// The path of the journal that keeps the rows, if they are to be kept.
    pub journal: Option<&'a str>,
    /// How many MB of 1,048,576 bytes the journal may have before a snapshot takes its place, 1..=1,048,576.
    pub snapshot_at: u32,
}

/// Makes the option `--parts N`.
fn parts_arg<'a>(alloc: Global) -> Arg<'a>
    ensures rule { rule_of result ≡ parts_rule }
    ensures local { result.global ≡ false }
{
    Arg::new(alloc, "parts")
        .long("parts")
        .value_name("N")
        .help("Opens the register with N parts, 1 to 16, that share the subscribers")
        .value_parser(ValueParser::signed(1, i64::from(MOST_PARTS)))
        .default_value("1")
}

/// Makes the option `--zone W`.
fn zone_arg<'a>(alloc: Global) -> Arg<'a>
    ensures rule { rule_of result ≡ zone_rule }
    ensures local { result.global ≡ false }
{
    Arg::new(alloc, "zone")
        .long("zone")
        .value_name("W")
        .help("Gives each zone W subscribers, 1 to 524288")
        .value_parser(ValueParser::signed(1, i64::from(GREATEST_WIDTH)))
        .default_value("524288")
}

/// Makes the option `--threads`.
fn threads_arg<'a>(alloc: Global) -> Arg<'a>
    ensures rule { rule_of result ≡ threads_rule }
    ensures local { result.global ≡ false }
{
    Arg::new(alloc, "threads")
        .long("threads")
        .help("Runs each part in a thread of its own, with the same replies")
        .action(ArgAction::SetTrue)
}

/// Makes the option `--journal FILE`.
fn journal_arg<'a>(alloc: Global) -> Arg<'a>
    ensures rule { rule_of result ≡ journal_rule }
    ensures local { result.global ≡ false }
{
    Arg::new(alloc, "journal")
        .long("journal")
        .value_name("FILE")
        .help("Keeps the rows in the journal FILE, which is made if there is none")
}

/// Makes the option `--snapshot-at MB`.
fn snapshot_arg<'a>(alloc: Global) -> Arg<'a>
    ensures rule { rule_of result ≡ snapshot_rule }
    ensures local { result.global ≡ false }
{
    Arg::new(alloc, "snapshot-at")
        .long("snapshot-at")
        .value_name("MB")
        .help(
            "Shortens the journal once it has MB megabytes, and then whenever it has doubled, 1 to 1048576",
        )
        .value_parser(ValueParser::signed(1, i64::from(GREATEST_SNAPSHOT_AT)))
        .default_value("64")
}

/// Makes the program with its options.
fn program_command<'a>(alloc: Global) -> Result<Command<'a>, AllocError>
    ensures { IfOk result (λ command. app_of command ≡ program) }
{
    Command::new(alloc, "hlr")
        .version(VERSION)
        .about(ABOUT)
        .after_help(FORMATS)
        .arg(parts_arg(alloc))?
        .arg(zone_arg(alloc))?
        .arg(threads_arg(alloc))?
        .arg(journal_arg(alloc))?
        .arg(snapshot_arg(alloc))
}

/// Reads the number that `--parts` spells.
fn read_parts(matches: &ArgMatches<'_>) -> Option<u8>
    ensures { IfSome result (Spells (one_of (codes "parts") (rows_of (found_of matches.now)))) }
{
    matches.get_one::<u8>("parts")
}

/// Reads the number that `--zone` spells.
fn read_zone(matches: &ArgMatches<'_>) -> Option<u32>
    ensures { IfSome result (Spells (one_of (codes "zone") (rows_of (found_of matches.now)))) }
{
    matches.get_one::<u32>("zone")
}

/// Returns whether `--threads` is given.
fn read_threads(matches: &ArgMatches<'_>) -> Option<bool>
    ensures { IfSome result (Tells (one_of (codes "threads") (rows_of (found_of matches.now)))) }
{
    matches.get_one::<bool>("threads")
}

/// Returns the path that `--journal` gives, if it is given.
fn read_journal<'a>(matches: &ArgMatches<'a>) -> Option<&'a str>
    ensures { option_map (λ path. path.now) result ≡ first_of (codes "journal") (rows_of (found_of matches.now)) }
{
    matches.get_str("journal")
}

/// Reads the number that `--snapshot-at` spells.
fn read_snapshot_at(matches: &ArgMatches<'_>) -> Option<u32>
    ensures { IfSome result (Spells (one_of (codes "snapshot-at") (rows_of (found_of matches.now)))) }
{
    matches.get_one::<u32>("snapshot-at")
}

/// Reads the options from the words with which the program was started; the first word is the program's name. An error
/// has a kind that the words call for (a request for help or for the version is an error, too), or `OutOfMemory`.
pub fn read_options<'a>(alloc: Global, words: &'a [&'a str]) -> Result<Options<'a>, Error>
    ensures range { IfOk result InRange }
    ensures words { IfOk result (OptionsOf (matches_of program (map (λ word. word.now) words.now))) }
    ensures kinds { FailsBy (fault_of program (map (λ word. word.now) words.now)) result }
{
    let command = program_command(alloc)?;
    let matches = command.try_get_matches_from(words)?;
    let Some(snapshot_at) = read_snapshot_at(&matches) else {
        return Err(Error::from(AllocError));
    };
    match (
        read_parts(&matches),
        read_zone(&matches),
        read_threads(&matches),
    ) {
        (Some(parts), Some(width), Some(threads))
            if can_open(parts, width) && (1..=GREATEST_SNAPSHOT_AT).contains(&snapshot_at) => {
            Ok(Options {
                parts,
                width,
                threads,
                journal: read_journal(&matches),
                snapshot_at,
            })
        }
        _ => Err(Error::from(AllocError)),
    }
}
