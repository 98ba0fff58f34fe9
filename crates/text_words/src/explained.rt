//! What numbers, names and the words of a log mean, in lines.

ghost use Rattle.std.specs.Prelude.{◌≡◌, ◌≢◌, ◌++◌, ◌<◌, [], ℕ, Some, None, false, IfSome, IfOk, OnOk, string_bytes, option_map};
ghost use Rattle.std.specs.Fmt.{decimal};
ghost use Rattle.text_faults.specs.Numbers.{is_number};
ghost use Rattle.text_words.specs.Numbers.{meaning_text, IsOfNumber, IsExplained};

use std::alloc::{AllocError, Global};
use text_faults::{Meaning, meaning_of};

const LAST_NUMBER: u8 = 37;

// The words of docs/OUTPUT.md: causes and locks, what ports told, and the last line.
static WORDS: [Meaning; 24] = [
    Meaning {
        name: "voted",
        cause: "there was a vote: two of three ports, or three of five, told the second that has just ended, and the same of a leap second",
        example: "5 relay 2016-06-15T12:00:05Z locked voted",
        cure: "nothing, if the premises were kept; else irig blame FILE shows who lied",
    },
    Meaning {
        name: "held",
        cause: "there was no vote, and the reader counts on from its last one",
        example: "7 relay 2016-06-15T12:00:07Z holdover:1 held",
        cure: "see which frames are lost, faulty, late or poor: irig blame FILE",
    },
    Meaning {
        name: "acquiring",
        cause: "acquiring:N: there were N votes in a row, fewer than lock_after, since the reader began afresh; it announces nothing yet",
        example: "1 relay - acquiring:1 acquiring",
        cure: "wait for lock_after votes in a row",
    },
    Meaning {
        name: "no-vote",
        cause: "there was no vote, and the reader has nothing to count from, as after a restart",
        example: "2 relay - unlocked no-vote",
        cure: "look at generators, cables, and parity and sense of the plant line",
    },
    Meaning {
        name: "expired",
        cause: "there was no vote for more than holdover edges, and the reader no longer counts",
        example: "19 relay - unlocked expired, where holdover is 10",
        cure: "find the lost votes; holdover is the time for which the oscillator can be trusted",
    },
    Meaning {
        name: "leap-guard",
        cause: "counting alone the reader came to 23:59:58 of a month's last day, and no frame or table told if a leap second comes; or, of a timekeeper, frames and its leap table contradict one another",
        example: "61 relay - unlocked leap-guard, after 2017-03-31T23:59:58Z holdover:57 held",
        cure: "give the reader a leap table that goes so far; if frames and table contradict one another, see which is wrong",
    },
    Meaning {
        name: "jump",
        cause: "the vote is for another second than the one that follows, and the reader begins afresh",
        example: "5 relay - unlocked jump, where two of three generators went ahead",
        cure: "see if the majority of the ports was wrong until now, or is now",
    },
    Meaning {
        name: "range-end",
        cause: "the next second would be after 2099-12-30",
        example: "3 relay - unlocked range-end, after 2099-12-30T23:59:59Z",
        cure: "end the run before: later seconds are not served",
    },
    Meaning {
        name: "locked",
        cause: "the announced second stands on a vote for the one before it",
        example: "5 relay 2016-06-15T12:00:05Z locked voted",
        cure: "nothing, if the premises were kept; else irig blame FILE shows who lied",
    },
    Meaning {
        name: "holdover",
        cause: "holdover:N: there was no vote for N edges, and the announced second is counted from the last one",
        example: "7 relay 2016-06-15T12:00:07Z holdover:1 held",
        cure: "find the lost votes: where N would be more than holdover of the plant line, the reader falls silent",
    },
    Meaning {
        name: "unlocked",
        cause: "the reader knows nothing of the time, and announces nothing",
        example: "20 relay - unlocked no-vote",
        cure: "the word behind it says why: irig explain no-vote",
    },
    Meaning {
        name: "ok",
        cause: "this port told the true claim of the frame that had just ended",
        example: "5 relay ok 2017-06-30T23:59:57Z ok, where ports 0 and 2 told it",
        cure: "nothing: all is well",
    },
    Meaning {
        name: "silence",
        cause: "nothing came to this port since the reader's last tick",
        example: "1 relay ok fault:3:Pulse:17 silence, where port 2 heard nothing",
        cure: "look at its generator and its cable",
    },
    Meaning {
        name: "poor",
        cause: "poor:Q: the frame has the time quality Q, 10 to 15, and no vote",
        example: "5 relay ok poor:12 ok",
        cure: "see why the sender's clock is not locked",
    },
    Meaning {
        name: "fault",
        cause: "fault:K:NAME, with a place for some: the frame has this fault, and no vote",
        example: "1 relay ok fault:3:Pulse:17 silence",
        cure: "look up its number or its name: irig explain 3",
    },
    Meaning {
        name: "unspoken",
        cause: "the frame says nothing of a leap second: only frames of seconds 1 to 59 of 23:59 UTC on a month's last day do; a log shows it of a port only if that is untrue",
        example: "claim 2016-12-31T23:59:00Z unspoken",
        cure: "nothing, where irig read prints it; in a log look at the port's generator",
    },
    Meaning {
        name: "no-leap",
        cause: "the frame says that no leap second comes at the month's end; a log shows it of a port only if that is untrue",
        example: "claim 2016-11-30T23:59:30Z no-leap",
        cure: "nothing, where irig read prints it rightly; in a log look at the port's generator",
    },
    Meaning {
        name: "insert",
        cause: "the frame says that 23:59:60 follows 23:59:59 at the month's end; a log shows it of a port only if that is untrue",
        example: "claim 2016-12-31T23:59:59Z insert",
        cure: "nothing, where irig read prints it rightly; in a log look at the port's generator",
    },
    Meaning {
        name: "delete",
        cause: "the frame says that 23:59:58 is the last second of the month; a log shows it of a port only if that is untrue",
        example: "claim 2016-12-31T23:59:30Z delete",
        cure: "nothing, where irig read prints it rightly; in a log look at the port's generator",
    },
    Meaning {
        name: "OFF",
        cause: "in the log of devices: how many microseconds of its counter the edge that a device told lies behind the true edge (+) or before it (-)",
        example: "+349, in 6 relay 2016-12-31T23:59:60Z locked voted +349 450",
        cure: "nothing, while it is within BOUND; else see irig blame FILE",
    },
    Meaning {
        name: "BOUND",
        cause: "in the log of devices: how many microseconds the edge that a device told, or the instant that its stamp names, may be off at most, by what the device knows",
        example: "450, in 6 relay 2016-12-31T23:59:60Z locked voted +349 450",
        cure: "nothing; it grows by drift of the plant line in each second of holdover",
    },
    Meaning {
        name: "@",
        cause: "in the log of devices: the stamp of the instant so many seconds behind edge 0: the second, the microseconds behind its edge by the device's counter, and their BOUND; - - - if the device gave none",
        example: "@6.300000 relay 2016-12-31T23:59:60Z 299657 450",
        cure: "compare two devices by the number of the edge and the microseconds, never by the second alone",
    },
    Meaning {
        name: "premises kept",
        cause: "of readers: at no tick did one get more untrue claims than it can outvote, one of three or two of five, and all leap tables are true. Of devices: at no tick were more lines of one untrue than that, each was ticked in time and has a counter as its drift says, and all leap tables that are needed are true. Then each second announced above is the true one, and each stamp names its instant",
        example: "premises kept, as the last line of a log",
        cure: "nothing: the log vouches for itself",
    },
    Meaning {
        name: "premises broken",
        cause: "at this tick of this reader two ports of three, or three of five, were the first to tell untrue claims; or in the second of this edge this device was the first that had so many untrue lines at a tick, or was not ticked in time. With table or drift: the leap table of this reader or device is not true, or the counter of this device gains or loses more than its drift says",
        example: "premises broken: edge 5 reader relay",
        cure: "see which ports or lines lied: irig blame FILE. From that edge on this reader follows its votes; a log of devices vouches for its lines down to the last one of edge N - 2",
    },
];

/// What a word means, in lines: the number of a fault or a refusal, a name of some, a word that a
/// log shows, also with what stands behind its colon, or the words of its last line, one or both.
/// None if it is no such word.
///
/// ASCII letters are the same in both cases. Of a name that two numbers have both are explained.
pub fn explanation(alloc: Global, word: &str) -> Result<Option<String>, AllocError>
    ensures some { IfOk result (λ found. IfSome found (λ text. string_bytes text ≢ [])) }
    ensures number { (n : ℕ) → n < 256 → word.now ≡ decimal n
        → IfOk result (λ found. IsExplained n (option_map string_bytes found)) }
{
    let mut text = String::new(alloc);
    match number_in(word) {
        Some(number) => push_number(&mut text, number)?,
        None => push_named(&mut text, word)?,
    }
    if text.is_empty() {
        Ok(None)
    } else {
        Ok(Some(text))
    }
}

fn push_named(text: &mut String, word: &str) -> Result<(), AllocError> {
    push_numbers_named(text, word)?;
    match name_in(word) {
        Some(name) => push_words_named(text, name),
        None => Ok(()),
    }
}

// ---- what the word is

// The number that it is, or that stands in a port's word for a fault.
fn number_in(word: &str) -> Option<u8>
    ensures { (n : ℕ) → n < 256 → word.now ≡ decimal n → result ≡ Some n }
{
    match plain_number(word) {
        Some(number) => Some(number),
        None => number_in_word(word),
    }
}

fn plain_number(word: &str) -> Option<u8>
    ensures { (n : ℕ) → n < 256 → word.now ≡ decimal n → result ≡ Some n }
{
    word.parse().ok()
}

fn number_in_word(word: &str) -> Option<u8> {
    match word.split_once(':') {
        Some((kind, fault)) if kind.eq_ignore_ascii_case("fault") => number_in_fault(fault),
        _ => None,
    }
}

// The number in `3:Pulse:12`, if it has the name that stands behind it.
fn number_in_fault(fault: &str) -> Option<u8> {
    let (number, rest) = fault.split_once(':').unwrap_or((fault, ""));
    match number.parse() {
        Ok(number) if may_be_followed(number, rest) => Some(number),
        _ => None,
    }
}

// Whether nothing stands behind a number, or first its name.
fn may_be_followed(number: u8, rest: &str) -> bool {
    let (name, _) = rest.split_once(':').unwrap_or((rest, ""));
    name.is_empty() || matches!(meaning_of(number), Some(meaning) if is_name(meaning, name))
}

// The word without a count behind its colon, where a count may stand.
fn name_in(word: &str) -> Option<&str> {
    match word.split_once(':') {
        Some((name, count)) if has_count(name) && is_count(count) => Some(name),
        Some(_) => None,
        None if word.starts_with('@') => Some("@"),
        None => Some(word),
    }
}

fn has_count(name: &str) -> bool {
    name.eq_ignore_ascii_case("acquiring")
        || name.eq_ignore_ascii_case("holdover")
        || name.eq_ignore_ascii_case("poor")
}

fn is_count(count: &str) -> bool {
    count.parse::<u32>().is_ok()
}

// Whether the first word of what has this meaning is this one.
fn is_name(meaning: &Meaning, word: &str) -> bool {
    let (name, _) = meaning.name.split_once(' ').unwrap_or((meaning.name, ""));
    name.eq_ignore_ascii_case(word)
}

// ---- what it means

// A loop over the table itself would have all of it in its proof.
fn words() -> &'static [Meaning] {
    &WORDS
}

fn push_numbers_named(text: &mut String, name: &str) -> Result<(), AllocError> {
    for number in 1..=LAST_NUMBER {
        if matches!(meaning_of(number), Some(meaning) if is_name(meaning, name)) {
            push_number(text, number)?;
        }
    }
    Ok(())
}

fn push_words_named(text: &mut String, name: &str) -> Result<(), AllocError> {
    for meaning in words() {
        if is_name(meaning, name) || is_last_word(meaning, name) || is_whole(meaning, name) {
            push_meaning(text, meaning)?;
        }
    }
    Ok(())
}

// Whether this is `kept` of `premises kept`.
fn is_last_word(meaning: &Meaning, word: &str) -> bool {
    matches!(meaning.name.split_once(' '), Some((_, last)) if last.eq_ignore_ascii_case(word))
}

// Whether this is all of `premises kept`.
fn is_whole(meaning: &Meaning, words: &str) -> bool {
    meaning.name.eq_ignore_ascii_case(words)
}

fn push_number(text: &mut String, number: u8) -> Result<(), AllocError>
    ensures none { is_number number ≡ false
        → OnOk result (string_bytes text.new ≡ string_bytes text.old) }
    ensures number { string_bytes text.old ≡ [] → is_number number ≢ false
        → OnOk result (IsOfNumber number (string_bytes text.new)) }
{
    match meaning_of(number) {
        Some(meaning) => {
            write!(text, "{number} ")?;
            push_meaning(text, meaning)
        }
        None => Ok(()),
    }
}

#[tactic(auto, unfolding(crate::specs::Numbers::meaning_text))]
fn push_meaning(text: &mut String, meaning: &Meaning) -> Result<(), AllocError>
    ensures { OnOk result (string_bytes text.new
        ≡ string_bytes text.old ++ meaning_text meaning.now) }
{
    write!(
        text,
        "{}\n{}\nfor example: {}\nwhat to do:  {}\n",
        meaning.name, meaning.cause, meaning.example, meaning.cure
    )
}

// ---- a word that means nothing

/// What may stand in place of a word that is not explained, as the text of a fault of the command
/// line.
pub fn why_no_word(alloc: Global, word: &str) -> Result<String, AllocError> {
    let mut text = String::new(alloc);
    let may = what_may_stand(word);
    write!(
        text,
        "error: invalid value '{word}' for '<WORD>': {may} may stand here\n\n{NUMBERS_TIP}"
    )?;
    push_words(&mut text)?;
    text.push_str(LAST_TIP)?;
    Ok(text)
}

static NUMBERS_TIP: &str =
    "  tip: of `refused: line 3: 25 Shape` the number is 25, and Shape the name: irig explain 25\n";

static LAST_TIP: &str =
    "  tip: docs/FAULTS.md has all numbers and names, docs/OUTPUT.md the words of a log

For more information, try '--help'.";

fn what_may_stand(word: &str) -> &'static str {
    match word.parse::<i64>() {
        Ok(_) => "a number from 1 to 37",
        Err(_) => "a number from 1 to 37, a name or a word of a log",
    }
}

fn push_words(text: &mut String) -> Result<(), AllocError> {
    text.push_str("  tip: the words of a log are")?;
    let mut separator = " ";
    for meaning in words() {
        write!(text, "{separator}{}", meaning.name)?;
        separator = ", ";
    }
    text.push_str("\n")
}
