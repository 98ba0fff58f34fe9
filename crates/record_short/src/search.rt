//! The seconds near a stamp that fit what is seen of a line.

ghost use Rattle.std.specs.Prelude.{◌≡◌, ◌≤◌, ◌<◌, ◌+◌, ◌*◌, ◌++◌, IfSome, List};
ghost use Rattle.irig_time.specs.Days.{is_month_end};
ghost use Rattle.record_short.specs.Searches.{IsFound, IsSearch, beginning_at, beginning_by, beginning_in, beginning_with, beginnings, deletion, end_near, first_day, insertion, is_in, leap_at_end, nearest, present, seconds_before, told_by, unlike};

use crate::fit::fits;
use crate::second::{day_length, second_in, seconds_about};
use crate::seen::Seen;
use irig_time::{Leap, Rules, UtcSecond, month_end};

/// Where seconds are searched, and how frames are read.
#[derive(Clone, Copy)]
pub struct Search {
    /// The second of the stamp, a valid one.
    pub stamp: UtcSecond,
    /// How many nanoseconds it is behind that, less than a second.
    pub nanoseconds: u32,
    /// How many seconds about it are searched, to either side, 900 at most.
    pub within: u16,
    /// How frames are read.
    pub rules: Rules,
}

/// When a recording begins.
#[derive(Clone, Copy)]
pub struct Beginning {
    /// In which second, a valid one.
    pub second: UtcSecond,
    /// How many microseconds after that, less than a second.
    pub since_us: u32,
    /// With which leap second about it, and at the end of which day.
    pub leap: Option<(u32, Leap)>,
}

/// What was found in a search.
#[derive(Clone, Copy)]
pub struct Found {
    /// How many beginnings fit.
    pub count: u32,
    /// The first of them.
    pub first: Option<Beginning>,
}

impl Found {
    /// The beginning that a line tells: the only one that fits.
    pub fn told(&self) -> Option<Beginning>
        ensures { (all : List Beginning) → IsFound self.now all → result ≡ told_by all }
    {
        if self.count == 1 { self.first } else { None }
    }

    fn note(&mut self, beginning: Option<Beginning>)
        requires { self.old.count < 100000 }
        ensures found { (all : List Beginning) → IsFound self.old all
            → IsFound self.new (all ++ present beginning) }
        ensures few { self.new.count ≤ self.old.count + 1 }
    {
        if let Some(beginning) = beginning {
            self.count += 1;
            self.first = Some(self.first.unwrap_or(beginning));
        }
    }
}

impl Search {
    /// The beginnings that fit all that is seen of a line: how many there are, and the first.
    pub fn found(&self, seen: &Seen) -> Found
        requires search { IsSearch self.now }
        requires seen { seen.now.begins_us < 3600000000 }
        ensures { IsFound result (beginnings self.now seen.now) }
    {
        let mut found = Found {
            count: 0,
            first: None,
        };
        for place in 0..2 * u32::from(self.within) + 1 {
            let plain = self.beginning_by(seen, None, place);
            let inserted = unlike(
                self.beginning_with(seen, self.insertion(), place),
                plain,
                None,
            );
            let deleted = unlike(
                self.beginning_with(seen, self.deletion(), place),
                plain,
                inserted,
            );
            found.note(plain);
            found.note(inserted);
            found.note(deleted);
        }
        found
    }

    fn insertion(&self) -> Option<(u32, Leap)>
        requires { IsSearch self.now }
        ensures { result ≡ insertion self.now }
    {
        self.leap_at_end(Leap::Insert)
    }

    fn deletion(&self) -> Option<(u32, Leap)>
        requires { IsSearch self.now }
        ensures { result ≡ deletion self.now }
    {
        if self.stamp.sod == 86_400 {
            None
        } else {
            self.leap_at_end(Leap::Delete)
        }
    }

    fn leap_at_end(&self, leap: Leap) -> Option<(u32, Leap)>
        requires { IsSearch self.now }
        ensures { result ≡ leap_at_end self.now leap }
    {
        let end = self.end_near();
        if month_end(end) {
            Some((end, leap))
        } else {
            None
        }
    }

    fn end_near(&self) -> u32
        requires { IsSearch self.now }
        ensures end { result ≡ end_near self.now }
        ensures served { result ≤ 36523 }
    {
        if self.stamp.sod < u32::from(self.within) {
            self.stamp.day - 1
        } else {
            self.stamp.day
        }
    }

    fn beginning_with(
        &self,
        seen: &Seen,
        leap: Option<(u32, Leap)>,
        place: u32,
    ) -> Option<Beginning>
        requires search { IsSearch self.now }
        requires seen { seen.now.begins_us < 3600000000 }
        requires place { place ≤ 1800 }
        ensures { result ≡ beginning_with self.now seen.now leap place }
    {
        match leap {
            Some(leap) => self.beginning_by(seen, Some(leap), place),
            None => None,
        }
    }

    fn beginning_by(&self, seen: &Seen, leap: Option<(u32, Leap)>, place: u32) -> Option<Beginning>
        requires search { IsSearch self.now }
        requires seen { seen.now.begins_us < 3600000000 }
        requires place { place ≤ 1800 }
        ensures { result ≡ beginning_by self.now seen.now leap place }
    {
        let number = self.nearest(leap, seen) + place - u32::from(self.within);
        self.beginning_at(seen, leap, number)
    }

    // The number of the second that begins nearest to when the stamp has the second seen begin.
    fn nearest(&self, leap: Option<(u32, Leap)>, seen: &Seen) -> u32
        requires search { IsSearch self.now }
        requires seen { seen.now.begins_us < 3600000000 }
        ensures nearest { result ≡ nearest self.now leap seen.now }
        ensures least { 86399 ≤ result }
        ensures most { result ≤ 200000 }
    {
        let since_ns = u64::from(self.nanoseconds) + u64::from(seen.begins_us) * 1_000;
        let seconds = (since_ns + 500_000_000) / 1_000_000_000;
        day_length(leap, self.first_day()) + self.stamp.sod + seconds as u32
    }

    fn first_day(&self) -> u32
        requires { IsSearch self.now }
        ensures day { result ≡ first_day self.now }
        ensures served { result ≤ 36523 }
    {
        self.stamp.day - 1
    }

    fn beginning_at(&self, seen: &Seen, leap: Option<(u32, Leap)>, number: u32) -> Option<Beginning>
        requires search { IsSearch self.now }
        requires seen { seen.now.begins_us < 3600000000 }
        requires number { number ≤ 1000000 }
        ensures { result ≡ beginning_at self.now seen.now leap number }
    {
        let seconds = seconds_about(leap, self.first_day(), number);
        if !fits(self.rules, &seen.shown, &seconds) {
            return None;
        }
        let before = number.saturating_sub(seconds_before(seen));
        beginning_in(second_in(leap, self.first_day(), before), leap, seen)
    }
}

fn seconds_before(seen: &Seen) -> u32
    requires { seen.now.begins_us < 3600000000 }
    ensures seconds { result ≡ seconds_before seen.now }
    ensures few { result ≤ 3600 }
{
    (seen.begins_us + 999_999) / 1_000_000
}

fn beginning_in(
    second: Option<UtcSecond>,
    leap: Option<(u32, Leap)>,
    seen: &Seen,
) -> Option<Beginning>
    requires { seen.now.begins_us < 3600000000 }
    ensures { result ≡ beginning_in second leap seen.now }
{
    match second {
        Some(second) => Some(Beginning {
            second,
            since_us: seconds_before(seen) * 1_000_000 - seen.begins_us,
            leap,
        }),
        None => None,
    }
}

fn is_in(beginning: Option<Beginning>, second: UtcSecond) -> bool
    ensures { result ≡ is_in beginning second }
{
    match beginning {
        Some(beginning) => {
            beginning.second.day == second.day && beginning.second.sod == second.sod
        }
        None => false,
    }
}

fn unlike(
    beginning: Option<Beginning>,
    one: Option<Beginning>,
    two: Option<Beginning>,
) -> Option<Beginning>
    ensures { result ≡ unlike beginning one two }
{
    match beginning {
        Some(found) => {
            if is_in(one, found.second) || is_in(two, found.second) {
                None
            } else {
                Some(found)
            }
        }
        None => None,
    }
}
