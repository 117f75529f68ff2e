//! A plain register of forty subscribers, for tests: all rows in arrays, a map of numbers beside them, counts that are
//! taken anew each time, the regions by a plain list, and a plain board.
use crate::plain_board::PlainBoard;
use crate::plain_regions::PlainRegions;
use crate::tests::{
    DONE, EXISTS, FIELD, MEMORY, MOVING, NO_ACCESS, NO_DESTINATION, NO_FACILITY, NO_FORWARDING,
    NO_NUMBER, NO_PART, NO_SUBSCRIBER, TAKEN, published, recounted, unposted,
};
use arrayvec::ArrayVec;
use hlr_core::{Event, Register, Reply};
use number_index::NumberIndex;
use tatp_actions::{CELLS, Cells, FIRST_AREA, FIRST_ZONE, RowReply};
use tatp_rows::{Access, Facility, Forwarding, Number, Refusal, Subscriber};

/// A plain register of the subscribers 1, 1 + stride, 1 + 2 * stride and so on, and of the numbers below 50.
#[derive(Drop)]
pub struct Plain {
    width: u32,
    stride: u64,
    subscribers: [Option<Subscriber>; 40],
    access: [Option<Access>; 160],
    facilities: [Option<Facility>; 160],
    forwardings: [Option<Forwarding>; 480],
    bearers: [Option<u32>; 50],
    regions: PlainRegions,
    board: PlainBoard,
}

/// Whether a value is in a range.
fn fits(value: u64, low: u64, high: u64) -> bool {
    low <= value && value <= high
}

/// Whether an s_id and a type are in range.
fn is_typed(s_id: u64, kind: u64) -> bool {
    fits(s_id, 1, 16_777_216) && fits(kind, 1, 4)
}

/// Whether a type and a start time are in range.
fn is_started(sf_type: u64, start_time: u64) -> bool {
    fits(sf_type, 1, 4) && (start_time == 0 || start_time == 8 || start_time == 16)
}

/// What stands at a place of a table.
fn at<T: Copy>(table: &[Option<T>], place: usize) -> Option<T> {
    match table.get(place) {
        Some(row) => *row,
        None => None,
    }
}

/// Sets a place of a table.
fn set<T: Copy + Drop>(table: &mut [Option<T>], place: usize, row: Option<T>) {
    if let Some(there) = table.get_mut(place) {
        *there = row;
    }
}

/// Puts a row into a free place of a table.
fn put<T: Copy + Drop>(table: &mut [Option<T>], place: usize, row: T) -> Reply {
    match table.get_mut(place) {
        Some(Some(_)) => EXISTS,
        Some(free) => {
            *free = Some(row);
            DONE
        }
        None => MEMORY,
    }
}

/// Counts one more in a cell.
fn count_one(cells: &mut [i64; CELLS as usize], cell: u32) {
    if let Some(count) = cells.get_mut(cell as usize) {
        *count = count.wrapping_add(1);
    }
}

/// Counts one more in each hour that a forwarding covers.
fn count_hours(cells: &mut [i64; CELLS as usize], row: &Forwarding) {
    for hour in 0..FIRST_AREA {
        if row.start_time() <= hour && hour < row.end_time() {
            count_one(cells, u32::from(hour));
        }
    }
}

/// Whether these are the same counts.
fn are_counts(cells: Option<Cells>, counted: &[i64; CELLS as usize]) -> bool {
    let Some(cells) = cells else {
        return false;
    };
    for cell in 0..CELLS {
        let count = i64::try_from(cells.get(cell)).ok();
        if counted.get(usize::from(cell)).copied() != count {
            return false;
        }
    }
    true
}

impl Plain {
    /// A register without a row.
    pub fn new(parts: u8, width: u32, stride: u64) -> Self {
        Plain {
            width,
            stride,
            subscribers: [None; 40],
            access: [None; 160],
            facilities: [None; 160],
            forwardings: [None; 480],
            bearers: [None; 50],
            regions: PlainRegions::opening(parts, width),
            board: PlainBoard::opening(parts),
        }
    }

    /// The place of a subscriber.
    fn place(&self, s_id: u64) -> usize {
        (s_id.wrapping_sub(1) / self.stride.max(1)) as usize
    }

    /// The place of a subscriber's access or facility of a type.
    fn typed_place(&self, s_id: u64, kind: u64) -> usize {
        let kinds = self.place(s_id).wrapping_mul(4);
        kinds.wrapping_add(kind.wrapping_sub(1) as usize)
    }

    /// The place of a facility's forwarding from an hour.
    fn started_place(&self, s_id: u64, sf_type: u64, start_time: u64) -> usize {
        let starts = self.typed_place(s_id, sf_type).wrapping_mul(3);
        starts.wrapping_add((start_time / 8) as usize)
    }

    /// The row of a subscriber.
    fn subscriber(&self, s_id: u64) -> Option<Subscriber> {
        at(&self.subscribers, self.place(s_id))
    }

    /// A subscriber's facility of a type.
    fn facility(&self, s_id: u64, sf_type: u64) -> Option<Facility> {
        at(&self.facilities, self.typed_place(s_id, sf_type))
    }

    /// A facility's forwarding from an hour.
    fn forwarding(&self, s_id: u64, sf_type: u64, start_time: u64) -> Option<Forwarding> {
        at(
            &self.forwardings,
            self.started_place(s_id, sf_type, start_time),
        )
    }

    /// The subscriber who has a number.
    fn bearer(&self, sub_nbr: Number) -> Option<u64> {
        let bearer = at(&self.bearers, sub_nbr.value() as usize)?;
        Some(u64::from(bearer))
    }

    /// Says who has a number.
    fn set_bearer(&mut self, sub_nbr: Number, bearer: Option<u32>) {
        set(&mut self.bearers, sub_nbr.value() as usize, bearer);
    }

    /// The cell of the zone of a subscriber.
    fn zone(&self, s_id: u32) -> u32 {
        u32::from(FIRST_ZONE) + (s_id.wrapping_sub(1) / self.width.max(1)).min(31)
    }

    /// Whether a facility is there and active.
    fn is_active(&self, s_id: u64, sf_type: u64) -> bool {
        match self.facility(s_id, sf_type) {
            Some(row) => row.is_active(),
            None => false,
        }
    }

    /// Whether a subscriber has this number.
    pub fn is_own(&self, s_id: u64, sub_nbr: Number) -> bool {
        self.bearer(sub_nbr) == Some(s_id)
    }

    /// Whether a facility with three forwardings would be switched from on to off, or from off to on.
    pub fn switches_three(&self, s_id: u64, sf_type: u64, is_active: u64) -> bool {
        is_typed(s_id, sf_type)
            && is_active <= 1
            && self.is_active(s_id, sf_type) != (is_active == 1)
            && self.forwarding(s_id, sf_type, 0).is_some()
            && self.forwarding(s_id, sf_type, 8).is_some()
            && self.forwarding(s_id, sf_type, 16).is_some()
    }

    /// The count of each cell over the rows of the subscribers from one on and below another, by a walk over all rows.
    fn counted(&self, lo: u32, hi: u32) -> [i64; CELLS as usize] {
        let mut cells = [0i64; CELLS as usize];
        for row in self.subscribers.iter().flatten() {
            if lo <= row.s_id() && row.s_id() < hi {
                let area = row.vlr_location() / 268_435_456;
                count_one(&mut cells, u32::from(FIRST_AREA) + area);
                count_one(&mut cells, self.zone(row.s_id()));
            }
        }
        for row in self.access.iter().flatten() {
            if lo <= row.s_id() && row.s_id() < hi {
                count_one(&mut cells, self.zone(row.s_id()));
            }
        }
        for row in self.facilities.iter().flatten() {
            if lo <= row.s_id() && row.s_id() < hi {
                count_one(&mut cells, self.zone(row.s_id()));
            }
        }
        self.count_forwardings(&mut cells, lo, hi);
        cells
    }

    /// Counts the forwardings of these subscribers too.
    fn count_forwardings(&self, cells: &mut [i64; CELLS as usize], lo: u32, hi: u32) {
        for row in self.forwardings.iter().flatten() {
            if lo <= row.s_id() && row.s_id() < hi {
                count_one(cells, self.zone(row.s_id()));
                if self.is_active(u64::from(row.s_id()), u64::from(row.sf_type())) {
                    count_hours(cells, row);
                }
            }
        }
    }

    /// The cells as a part has published them.
    pub fn published_by(&self, part: u64) -> [i64; CELLS as usize] {
        self.board.published_by(part)
    }

    /// The regions.
    pub fn regions(&self) -> &PlainRegions {
        &self.regions
    }

    /// Moves the bounds between parts to these.
    pub fn recut_to(&mut self, bounds: &[u64]) -> Result<u8, Refusal> {
        self.regions.recut_to(bounds)
    }

    /// Reads a subscriber's row.
    fn subscriber_data(&self, s_id: u64) -> Reply {
        if !fits(s_id, 1, 16_777_216) {
            return FIELD;
        }
        if self.regions.is_loose(s_id) {
            return MOVING;
        }
        match self.subscriber(s_id) {
            Some(row) => Reply::Rows(RowReply::Row(row)),
            None => NO_SUBSCRIBER,
        }
    }

    /// Reads the numbers of the forwardings that start by an hour and end after another.
    fn new_destination(&self, s_id: u64, sf_type: u64, start_time: u64, end_time: u64) -> Reply {
        if !is_typed(s_id, sf_type) || !is_started(sf_type, start_time) || !fits(end_time, 1, 24) {
            return FIELD;
        }
        if self.regions.is_loose(s_id) {
            return MOVING;
        }
        let mut numbers = ArrayVec::new();
        for start in [0, 8, 16] {
            let Some(row) = self.forwarding(s_id, sf_type, start) else {
                continue;
            };
            if start <= start_time
                && end_time < u64::from(row.end_time())
                && self.is_active(s_id, sf_type)
            {
                let _full = numbers.try_push(row.numberx());
            }
        }
        if numbers.is_empty() {
            return NO_DESTINATION;
        }
        Reply::Rows(RowReply::Numbers(numbers))
    }

    /// Reads the data of an access.
    fn access_data(&self, s_id: u64, ai_type: u64) -> Reply {
        if !is_typed(s_id, ai_type) {
            return FIELD;
        }
        if self.regions.is_loose(s_id) {
            return MOVING;
        }
        let Some(row) = at(&self.access, self.typed_place(s_id, ai_type)) else {
            return NO_ACCESS;
        };
        Reply::Rows(RowReply::AccessRow {
            data1: row.data1(),
            data2: row.data2(),
            data3: row.data3(),
            data4: row.data4(),
        })
    }

    /// Sets bit_1 of a subscriber and data_a of a facility.
    fn update_subscriber(&mut self, s_id: u64, sf_type: u64, bit_1: u64, data_a: u64) -> Reply {
        if !is_typed(s_id, sf_type) || bit_1 > 1 || data_a > 255 {
            return FIELD;
        }
        if self.regions.is_loose(s_id) {
            return MOVING;
        }
        let Some(subscriber) = self.subscriber(s_id) else {
            return NO_SUBSCRIBER;
        };
        let Some(facility) = self.facility(s_id, sf_type) else {
            return NO_FACILITY;
        };
        let subscriber = subscriber.with_bit_1(bit_1 as u8);
        let facility = facility.with_data_a(data_a as u8);
        let (place, typed_place) = (self.place(s_id), self.typed_place(s_id, sf_type));
        set(&mut self.subscribers, place, Some(subscriber));
        set(&mut self.facilities, typed_place, Some(facility));
        DONE
    }

    /// Moves the subscriber who has a number.
    fn update_location(&mut self, sub_nbr: Number, vlr_location: u64) -> Reply {
        if vlr_location == 0 || vlr_location > 4_294_967_295 {
            return FIELD;
        }
        let Some(s_id) = self.bearer(sub_nbr) else {
            return NO_NUMBER;
        };
        if self.regions.is_loose(s_id) {
            return MOVING;
        }
        let Some(row) = self.subscriber(s_id) else {
            return NO_NUMBER;
        };
        let row = row.with_vlr_location(vlr_location as u32);
        let place = self.place(s_id);
        set(&mut self.subscribers, place, Some(row));
        DONE
    }

    /// Adds a forwarding of the subscriber who has a number.
    fn insert_forwarding(
        &mut self,
        sub_nbr: Number,
        sf_type: u64,
        start_time: u64,
        end_time: u64,
        numberx: Number,
    ) -> Reply {
        if !is_started(sf_type, start_time) || !fits(end_time, 1, 24) {
            return FIELD;
        }
        let Some(s_id) = self.bearer(sub_nbr) else {
            return NO_NUMBER;
        };
        if self.regions.is_loose(s_id) {
            return MOVING;
        }
        if self.facility(s_id, sf_type).is_none() {
            return NO_FACILITY;
        }
        let place = self.started_place(s_id, sf_type, start_time);
        match Forwarding::try_new(s_id, sf_type, start_time, end_time, numberx) {
            Ok(row) => put(&mut self.forwardings, place, row),
            Err(_) => FIELD,
        }
    }

    /// Takes a forwarding away from the subscriber who has a number.
    fn delete_forwarding(&mut self, sub_nbr: Number, sf_type: u64, start_time: u64) -> Reply {
        if !is_started(sf_type, start_time) {
            return FIELD;
        }
        let Some(s_id) = self.bearer(sub_nbr) else {
            return NO_NUMBER;
        };
        if self.regions.is_loose(s_id) {
            return MOVING;
        }
        if self.forwarding(s_id, sf_type, start_time).is_none() {
            return NO_FORWARDING;
        }
        let place = self.started_place(s_id, sf_type, start_time);
        set(&mut self.forwardings, place, None);
        DONE
    }

    /// Adds a subscriber, whose number is free.
    fn add_subscriber(&mut self, row: Subscriber) -> Reply {
        let s_id = row.s_id();
        let place = self.place(u64::from(s_id));
        if self.regions.is_loose(u64::from(s_id)) {
            return MOVING;
        }
        if at(&self.subscribers, place).is_some() {
            return EXISTS;
        }
        if self.bearer(row.sub_nbr()).is_some() {
            return TAKEN;
        }
        self.set_bearer(row.sub_nbr(), Some(s_id));
        put(&mut self.subscribers, place, row)
    }

    /// Adds an access of a subscriber.
    fn add_access(&mut self, row: Access) -> Reply {
        let s_id = u64::from(row.s_id());
        if self.regions.is_loose(s_id) {
            return MOVING;
        }
        if self.subscriber(s_id).is_none() {
            return NO_SUBSCRIBER;
        }
        let place = self.typed_place(s_id, u64::from(row.ai_type()));
        put(&mut self.access, place, row)
    }

    /// Adds a facility of a subscriber.
    fn add_facility(&mut self, row: Facility) -> Reply {
        let s_id = u64::from(row.s_id());
        if self.regions.is_loose(s_id) {
            return MOVING;
        }
        if self.subscriber(s_id).is_none() {
            return NO_SUBSCRIBER;
        }
        let place = self.typed_place(s_id, u64::from(row.sf_type()));
        put(&mut self.facilities, place, row)
    }

    /// Switches a facility on or off.
    fn set_active(&mut self, s_id: u64, sf_type: u64, is_active: u64) -> Reply {
        if !is_typed(s_id, sf_type) || is_active > 1 {
            return FIELD;
        }
        if self.regions.is_loose(s_id) {
            return MOVING;
        }
        let Some(row) = self.facility(s_id, sf_type) else {
            return NO_FACILITY;
        };
        let place = self.typed_place(s_id, sf_type);
        set(
            &mut self.facilities,
            place,
            Some(row.with_is_active(is_active == 1)),
        );
        DONE
    }

    /// Gives a subscriber another number, or its own.
    fn set_number(&mut self, s_id: u64, sub_nbr: Number) -> Reply {
        if !fits(s_id, 1, 16_777_216) {
            return FIELD;
        }
        if self.regions.is_loose(s_id) {
            return MOVING;
        }
        let Some(row) = self.subscriber(s_id) else {
            return NO_SUBSCRIBER;
        };
        if self.bearer(sub_nbr).is_some() && !self.is_own(s_id, sub_nbr) {
            return TAKEN;
        }
        self.set_bearer(row.sub_nbr(), None);
        self.set_bearer(sub_nbr, Some(row.s_id()));
        let place = self.place(s_id);
        set(
            &mut self.subscribers,
            place,
            Some(row.with_sub_nbr(sub_nbr)),
        );
        DONE
    }

    /// Posts the first cells of a part that are not posted.
    fn post(&mut self, part: u64, limit: u64) -> Reply {
        let Some((lo, hi)) = self.regions.range_of(part) else {
            return NO_PART;
        };
        let counted = self.counted(lo, hi);
        let published = self.board.published_by(part);
        let mut posted = 0u8;
        for (cell, (count, net)) in counted.iter().zip(published.iter()).enumerate() {
            if *count != *net && u64::from(posted) < limit {
                self.board.post(part, cell, count.wrapping_sub(*net));
                posted = posted.wrapping_add(1);
            }
        }
        Reply::Posted(posted)
    }

    /// Divides a part, and gives the new one a slot.
    fn divide(&mut self, part: u64, at: u64) -> Reply {
        let reply = self.regions.divide(part, at);
        if matches!(reply, Reply::Divided { .. }) {
            self.board.divide(part);
        }
        reply
    }

    /// Dissolves a part, and takes back what it has posted.
    fn dissolve(&mut self, part: u64) -> Reply {
        let reply = self.regions.dissolve(part);
        if matches!(reply, Reply::Dissolved { .. }) {
            self.board.dissolve(part);
        }
        reply
    }

    /// Applies an event, and replies to it.
    pub fn apply(&mut self, event: Event) -> Reply {
        match event {
            Event::SubscriberData { s_id } => self.subscriber_data(s_id),
            Event::NewDestination {
                s_id,
                sf_type,
                start_time,
                end_time,
            } => self.new_destination(s_id, sf_type, start_time, end_time),
            Event::AccessData { s_id, ai_type } => self.access_data(s_id, ai_type),
            Event::UpdateSubscriber {
                s_id,
                sf_type,
                bit_1,
                data_a,
            } => self.update_subscriber(s_id, sf_type, bit_1, data_a),
            Event::UpdateLocation {
                sub_nbr,
                vlr_location,
            } => self.update_location(sub_nbr, vlr_location),
            Event::InsertForwarding {
                sub_nbr,
                sf_type,
                start_time,
                end_time,
                numberx,
            } => self.insert_forwarding(sub_nbr, sf_type, start_time, end_time, numberx),
            Event::DeleteForwarding {
                sub_nbr,
                sf_type,
                start_time,
            } => self.delete_forwarding(sub_nbr, sf_type, start_time),
            Event::AddSubscriber(row) => self.add_subscriber(row),
            Event::AddAccess(row) => self.add_access(row),
            Event::AddFacility(row) => self.add_facility(row),
            Event::SetActive {
                s_id,
                sf_type,
                is_active,
            } => self.set_active(s_id, sf_type, is_active),
            Event::SetNumber { s_id, sub_nbr } => self.set_number(s_id, sub_nbr),
            Event::Post { part, limit } => self.post(part, limit),
            Event::Give { part, side, at } => self.regions.give(part, side, at),
            Event::Take { piece, part } => self.regions.take(piece, part),
            Event::Divide { part, at } => self.divide(part, at),
            Event::Dissolve { part } => self.dissolve(part),
        }
    }

    /// Whether an index has the pairs of the map of numbers, and no others.
    fn has_pairs_of(&self, index: &NumberIndex) -> bool {
        let mut pairs = 0u64;
        for (value, bearer) in self.bearers.iter().enumerate() {
            let Ok(sub_nbr) = Number::try_new(value as u64) else {
                return false;
            };
            if index.find(sub_nbr) != *bearer {
                return false;
            }
            pairs = pairs.wrapping_add(u64::from(bearer.is_some()));
        }
        index.len() == pairs
    }

    /// Whether a register has these cells, published, posted or not and counted over the rows, these words, these
    /// numbers and these regions.
    pub fn agrees(&self, register: &mut Register) -> bool {
        let counted = self.counted(1, 16_777_217);
        let cells = self.board.published();
        let mut rest = counted;
        for (count, cell) in rest.iter_mut().zip(cells.iter()) {
            *count = count.wrapping_sub(*cell);
        }
        published(register) == cells
            && unposted(register) == rest
            && are_counts(recounted(register), &counted)
            && self.board.is_level()
            && self.board.is_seen(&register.look())
            && self.has_pairs_of(register.index())
            && self.regions.list() == register.regions().list()
    }
}
