//! What the numbers of faults and refusals mean.

ghost use Rattle.std.specs.Prelude.{◌≡◌, IfSome, is_some};
ghost use Rattle.text_faults.specs.Refusals.{name_of, number_of};
ghost use Rattle.text_faults.specs.declared.refusal.Refusal.{Refusal};
ghost use Rattle.text_faults.specs.Numbers.{is_number};

/// What a number means, as docs/FAULTS.md has it.
#[derive(Clone, Copy)]
pub struct Meaning {
    /// Its name; of a fault that has a place, with a word for the place.
    pub name: &'static str,
    /// When it comes.
    pub cause: &'static str,
    /// A case of it.
    pub example: &'static str,
    /// What to do about it.
    pub cure: &'static str,
}

static MEANINGS: [Meaning; 37] = [
    // 1
    Meaning {
        name: "Short n",
        cause: "fewer than 100 symbols, n of them",
        example: "a frame whose last pulse was lost",
        cure: "look for lost pulses, and for a tick before the frame is complete",
    },
    // 2
    Meaning {
        name: "Long",
        cause: "more than 100 symbols",
        example: "two frames before one tick",
        cure: "look for pulses that are cut in two, and for a tick that came late",
    },
    // 3
    Meaning {
        name: "Pulse i",
        cause: "the lowest wrong element is i, a bad pulse",
        example: "a pulse of 300 microseconds",
        cure: "measure the pulses of that element: docs/FRAME.md has the widths",
    },
    // 4
    Meaning {
        name: "Marker i",
        cause: "the lowest wrong element is i, a marker where data belongs or data where a marker does",
        example: "a 0 at element 99",
        cure: "see if the sender speaks B004, and if pulses were lost",
    },
    // 5
    Meaning {
        name: "Digit field",
        cause: "the first wrong field, of second, minute, hour, day, year, has a decimal digit above 9",
        example: "a minute whose units are 1, 2 and 8 together",
        cure: "look for damage: no sender means that",
    },
    // 6
    Meaning {
        name: "Range field",
        cause: "that field has digits, and is out of its range",
        example: "hour 24, or day 367",
        cure: "look for damage: no sender means that",
    },
    // 7
    Meaning {
        name: "NoSuchDay",
        cause: "day 366 of a year that has 365",
        example: "day 366 of 2017",
        cure: "see if the sender has the right year",
    },
    // 8
    Meaning {
        name: "OutOfYears",
        cause: "the UTC day is before 2000-01-02 or after 2099-12-30",
        example: "day 1 of 2000 at 00:00:00 UTC",
        cure: "see if the sender has the right year",
    },
    // 9
    Meaning {
        name: "Second60",
        cause: "second 60 elsewhere than in 23:59 UTC of a month's last day",
        example: "12:00:60",
        cure: "see if the sender's offset is the right one, and sense that of the plant",
    },
    // 10
    Meaning {
        name: "DeletedSecond",
        cause: "23:59:59 UTC of a month's last day, and the frame says that this second is deleted",
        example: "23:59:59 with leap pending and its kind set",
        cure: "ask why the sender sends a second that it says does not come",
    },
    // 11
    Meaning {
        name: "BadStart",
        cause: "start is no second of this timeline",
        example: "\"start\":\"2016-12-31T23:59:60Z\" with \"leaps\":[]",
        cure: "list the leap second, or start at another second",
    },
    // 12
    Meaning {
        name: "LeapNotMonthEnd",
        cause: "a leap on a day that is not a month's last",
        example: "\"leaps\":[{\"day\":\"2016-12-30\",\"kind\":\"insert\"}]",
        cure: "give the day at whose end the leap comes",
    },
    // 13
    Meaning {
        name: "LeapTwice",
        cause: "a day is listed twice in leaps",
        example: "\"leaps\":[{\"day\":\"2016-12-31\",\"kind\":\"insert\"},{\"day\":\"2016-12-31\",\"kind\":\"insert\"}]",
        cure: "leave one out",
    },
    // 14
    Meaning {
        name: "OutOfYears",
        cause: "a leap outside 2000-01-02 to 2099-12-30",
        example: "\"leaps\":[{\"day\":\"2099-12-31\",\"kind\":\"insert\"}]",
        cure: "leave it out: no run goes so far",
    },
    // 15
    Meaning {
        name: "Offset",
        cause: "a zone more than 31 half hours from UTC",
        example: "{\"local\":32}",
        cure: "give half hours, not minutes",
    },
    // 16
    Meaning {
        name: "Changes",
        cause: "a change inside a minute, or not later than the one before",
        example: "\"changes\":[{\"at\":\"2016-03-27T01:00:30Z\",\"local\":4,\"dst\":true}]",
        cure: "put changes at the first second of a minute, in order",
    },
    // 17
    Meaning {
        name: "Parity",
        cause: "the ones at elements 1 to 75 have the wrong parity",
        example: "one element of 1 to 75 that is not as it was sent",
        cure: "look for damage; if every frame has it, the sender has the other parity",
    },
    // 18
    Meaning {
        name: "Sbs",
        cause: "the straight binary seconds are not those of the coded time",
        example: "binary seconds of UTC beside a local time",
        cure: "look for damage; if every frame has it, let the plant ignore them",
    },
    // 19
    Meaning {
        name: "NoSuchReader",
        cause: "no reader or device has this name",
        example: "{\"do\":\"tick\",\"r\":\"rely\"}",
        cure: "take a name of the plant line",
    },
    // 20
    Meaning {
        name: "NoSuchGenerator",
        cause: "there is no generator g",
        example: "{\"do\":\"step\",\"g\":3} with three generators",
        cure: "count from 0",
    },
    // 21
    Meaning {
        name: "FutureReplay",
        cause: "a replay of an edge that generator g has not reached",
        example: "{\"do\":\"replay\",\"g\":0,\"r\":\"relay\",\"edge\":9} at edge 8",
        cure: "replay a past edge; skew sends a future one",
    },
    // 22
    Meaning {
        name: "EndOfYears",
        cause: "a second after 2099-12-30",
        example: "{\"do\":\"seconds\",\"n\":3} where start is \"2099-12-30T23:59:58Z\"",
        cure: "end earlier; what came before stands in the log",
    },
    // 23
    Meaning {
        name: "TooLong",
        cause: "more than 65,536 bytes in a line",
        example: "a line of 65,537 blanks",
        cure: "break up the line; is a newline missing?",
    },
    // 24
    Meaning {
        name: "Json",
        cause: "no JSON, no UTF-8, or nested deeper than 127",
        example: "{\"do\":\"tick\",\"r\":\"relay\"",
        cure: "close what is open; one value a line",
    },
    // 25
    Meaning {
        name: "Shape",
        cause: "a key is missing or unknown, or a value has another type; a do or kind that is not there",
        example: "{\"do\":\"tick\",\"reader\":\"relay\"}",
        cure: "compare the line with the tables of docs/SCENARIOS.md: each version has its own keys and events",
    },
    // 26
    Meaning {
        name: "Value",
        cause: "a number out of its range, a text that is none of the words or no date, a list that is too long, or too many or too few generators",
        example: "{\"do\":\"damage\",\"g\":0,\"r\":\"relay\",\"at\":100,\"width\":2000}",
        cure: "compare the value with the tables of docs/SCENARIOS.md",
    },
    // 27
    Meaning {
        name: "Version",
        cause: "a version that this program does not know",
        example: "{\"version\":5}",
        cure: "take 1, 2, 3 or 4",
    },
    // 28
    Meaning {
        name: "Names",
        cause: "no reader or device, or more than 16, a name of another form, or a name twice",
        example: "\"readers\":[{\"name\":\"Relay\",\"lock_after\":2,\"holdover\":3600}]",
        cure: "small letters, digits, _ and -, 1 to 16 of them",
    },
    // 29
    Meaning {
        name: "NoPlant",
        cause: "the input ended before a plant line",
        example: "an empty file",
        cure: "was the right file given?",
    },
    // 30
    Meaning {
        name: "TooManyLines",
        cause: "more than 1,000,000 lines",
        example: "line 1,000,001",
        cure: "join events to seconds lines, or make two scenarios",
    },
    // 31
    Meaning {
        name: "TableEnd",
        cause: "a table goes beyond 2099-12-30",
        example: "\"table\":{\"until\":\"2099-12-31\",\"leaps\":[]}",
        cure: "end it with the bulletin's last day",
    },
    // 32
    Meaning {
        name: "TableLong",
        cause: "a table with more than 64 leaps",
        example: "a list of 65",
        cure: "leave out those before start, with an earlier table",
    },
    // 33
    Meaning {
        name: "TableDay",
        cause: "a table's leap on a day that is not a month's last, or after until",
        example: "\"table\":{\"until\":\"2016-12-31\",\"leaps\":[{\"day\":\"2017-06-30\",\"kind\":\"insert\"}]}",
        cure: "move until, or leave it out",
    },
    // 34
    Meaning {
        name: "TableTwice",
        cause: "a day is listed twice in a table",
        example: "\"leaps\":[{\"day\":\"2016-12-31\",\"kind\":\"insert\"},{\"day\":\"2016-12-31\",\"kind\":\"insert\"}] in a table",
        cure: "leave one out",
    },
    // 35
    Meaning {
        name: "Drift",
        cause: "a holdover longer than a timekeeper's counter can count: (holdover + 2) * drift_us is above 490,000, and wander_ppb is 0",
        example: "a holdover of a day by a counter that is 50 microseconds a second wrong",
        cure: "ask for a shorter holdover, use a better oscillator, or let the timekeeper learn it by a wander_ppb",
    },
    // 36
    Meaning {
        name: "Early",
        cause: "a second before the first day that the reader takes, not_before",
        example: "day 366 of 2000 from a clock that sends no year",
        cure: "set the clock to B004; if it has the wrong year, see if its count of GPS weeks began anew",
    },
    // 37
    Meaning {
        name: "BeforeStart",
        cause: "a stamp of an instant before edge 0",
        example: "{\"do\":\"stamp\",\"r\":\"relay\",\"ago\":500000} where 400,000 us have passed",
        cure: "ask for a later instant, or let more time pass before",
    },
];

/// What the number of a fault of a frame (1 to 10, 17, 18, 36), or of a refusal of a line or a
/// setup (11 to 16, 19 to 35, 37), means; none of another number.
pub fn meaning_of(number: u8) -> Option<&'static Meaning>
    ensures known { is_some result ≡ is_number number }
    ensures name { (refusal : Refusal) → number_of refusal ≡ number
        → IfSome result (λ meaning. meaning.now.name.now ≡ name_of refusal) }
{
    let place = usize::from(number).checked_sub(1)?;
    MEANINGS.get(place)
}
