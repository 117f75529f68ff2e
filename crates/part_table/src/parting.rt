//! The parts that are divided in two, and those that are dissolved into the part in front.
ghost use Rattle.std.specs.Prelude.{◌≡◌, ◌<◌, ℕ, Some, IfOk, IfErr, position};
ghost use Rattle.std.specs.List.{AllByRecursion};
ghost use Rattle.part_table.specs.Dissolve.{after_dissolve, dissolve_answer, dissolved};
ghost use Rattle.part_table.specs.Divide.{after_divide, divide_answer, divide_answer_of, divided, place_raised};
ghost use Rattle.part_table.specs.Region.{is_part, part_number};

use crate::cutting::put_two;
use crate::finding::{count_parts, part_at};
use crate::joining::put_one;
use crate::numbering::{lower_from, raise_from, raised};
use crate::region::{MOST_PARTS, Region};
use crate::regions::Regions;
use tatp_rows::Refusal;

impl Regions {
    /// Returns what [`Regions::divide`] would return, and in front of it the place of the part's region. Nothing
    /// changes.
    pub fn dividing(&self, p: u64, at: u64) -> Result<(usize, (u8, u32, u32)), Refusal>
        ensures index { IfOk result (λ told. position (is_part p) self.now ≡ Some told.0) }
        ensures answer { IfOk result (λ told. divide_answer p at self.now ≡ Ok told.1) }
        ensures refused { IfErr result (λ why. divide_answer p at self.now ≡ Err why) }
    {
        let regions = self.list();
        let Some(i) = part_at(regions, p) else {
            return Err(Refusal::NoPart);
        };
        let told = divide_answer_of(regions, regions[i], p, at)?;
        Ok((i, told))
    }

    /// Divides the part at the place `i`, which [`Regions::dividing`] has returned, and leaves the regions as
    /// [`Regions::divide`] does.
    pub fn divide_at(&mut self, i: usize, at: u64)
        requires { (p : ℕ) × (told : ℕ × ℕ × ℕ) × (position (is_part p) self.old ≡ Some i) × (divide_answer p at self.old ≡ Ok told) }
        ensures { (p : ℕ) → position (is_part p) self.old ≡ Some i → self.new ≡ divided p at self.old }
    {
        let (low, high) = divided(self.list[i], at as u32);
        raise_from(self.list.as_mut_slice(), i + 1);
        put_two(&mut self.list, i, low, high);
    }

    /// Divides the part `p` at a subscriber: it keeps what is below, a new part with the next number gets the rest, and
    /// the numbers of later parts rise by one. It returns the new part's number, and where it begins and ends. Its
    /// refusals, in order, are `NoPart`, `OutOfRange` if `at` isn't strictly inside the part, and `ManyParts` if
    /// sixteen parts are there. A refusal changes nothing.
    pub fn divide(&mut self, p: u64, at: u64) -> Result<(u8, u32, u32), Refusal>
        ensures answer { result ≡ divide_answer p at self.old }
        ensures after { self.new ≡ after_divide p at result self.old }
    {
        let (i, told) = self.dividing(p, at)?;
        self.divide_at(i, at);
        Ok(told)
    }

    /// Returns what [`Regions::dissolve`] would return, and in front of it the place of the part's region, which is
    /// right behind that of the part in front. Nothing changes.
    pub fn dissolving(&self, p: u64) -> Result<(usize, (u8, u32, u32)), Refusal>
        ensures index { IfOk result (λ told. position (is_part p) self.now ≡ Some told.0) }
        ensures answer { IfOk result (λ told. dissolve_answer p self.now ≡ Ok told.1) }
        ensures behind { IfOk result (λ told. 0 < told.0) }
        ensures refused { IfErr result (λ why. dissolve_answer p self.now ≡ Err why) }
    {
        let regions = self.list();
        let Some(i) = part_at(regions, p) else {
            return Err(Refusal::NoPart);
        };
        if i == 0 || !regions[i - 1].is_of_part() {
            return Err(Refusal::NotAdjacent);
        }
        Ok((i, (p as u8 - 1, regions[i - 1].lo, regions[i].hi)))
    }

    /// Dissolves the part at the place that [`Regions::dissolving`] has returned, and leaves the regions as
    /// [`Regions::dissolve`] does.
    pub fn dissolve_at(&mut self, i: usize)
        requires { (p : ℕ) × (told : ℕ × ℕ × ℕ) × (position (is_part p) self.old ≡ Some i) × (dissolve_answer p self.old ≡ Ok told) }
        ensures { (p : ℕ) → position (is_part p) self.old ≡ Some i → self.new ≡ dissolved p self.old }
    {
        let whole = Region {
            hi: self.list[i].hi,
            ..self.list[i - 1]
        };
        lower_from(self.list.as_mut_slice(), i + 1);
        put_one(&mut self.list, i, whole);
    }

    /// Dissolves the part `p`: the part in front of it gets its range, and the numbers of later parts fall by one. It
    /// returns the number of the part in front, and where that begins and ends now. Its refusals, in order, are
    /// `NoPart` and `NotAdjacent` if `p` is the first part or a loose piece lies in front of it. A refusal changes
    /// nothing.
    pub fn dissolve(&mut self, p: u64) -> Result<(u8, u32, u32), Refusal>
        ensures answer { result ≡ dissolve_answer p self.old }
        ensures after { self.new ≡ after_dissolve p result self.old }
    {
        let (i, told) = self.dissolving(p)?;
        self.dissolve_at(i);
        Ok(told)
    }
}

/// Returns the answer of a part with this region and this number to a divide, which is the new part's number, and where
/// it begins and ends.
fn divide_answer_of(
    regions: &[Region],
    part: Region,
    p: u64,
    at: u64,
) -> Result<(u8, u32, u32), Refusal>
    requires { p < 255 }
    ensures { result ≡ divide_answer_of (Some part) p at regions.now }
{
    if at <= u64::from(part.lo) || u64::from(part.hi) <= at {
        return Err(Refusal::OutOfRange);
    }
    if count_parts(regions) == usize::from(MOST_PARTS) {
        return Err(Refusal::ManyParts);
    }
    Ok((p as u8 + 1, at as u32, part.hi))
}

/// Returns the two halves of a part's region, of which the second is the next part's.
fn divided(part: Region, at: u32) -> (Region, Region)
    requires { AllByRecursion (λ p. p < 255) (part_number part.place) }
    ensures low { result.0 ≡ record part { hi = at } }
    ensures high { result.1 ≡ record part { lo = at; place = place_raised part.place } }
{
    (
        Region { hi: at, ..part },
        Region {
            lo: at,
            place: raised(part.place),
            ..part
        },
    )
}
