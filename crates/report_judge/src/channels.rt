//! Which channels of a recording are judged: the wires of a dump, or the digital channels of a
//! record.

ghost use Rattle.std.specs.Prelude.{◌≡◌, ◌<◌, ◌≤◌, [], All, Err, IfOk, IfSome, MatchResult, Ok, length};
ghost use Rattle.report_judge.specs.Channels.{channel_bytes, chosen, is_in, names_in, place_of, places_named, redundancy_of, texts_of, upto};

use arrayvec::ArrayVec;
use irig_vote::Redundancy;
use record_text::field_of;

/// Why the channels of a recording are not judged that are asked for, in the order in which faults
/// are answered.
#[derive(Clone, Copy, PartialEq, Eq)]
pub enum ChannelFault {
    /// They are so many, and not one, three or five.
    Count(usize),
    /// No channel has the name at this place among those that are asked for, from 0.
    Unknown(usize),
    /// The name at this place is that of another one that is asked for.
    Twice(usize),
}

/// The places of the channels that are judged, of which these are the names: those with the names
/// that are asked for, which commas part, or all.
pub(crate) fn places_named(
    names: &[Vec<u8>],
    channels: Option<&str>,
) -> Result<ArrayVec<usize, 5>, ChannelFault>
    ensures places { MatchResult result
        (λ places. places_named (texts_of names.now) (channel_bytes channels.entry)
        ≡ Ok places.items)
        (λ fault. places_named (texts_of names.now) (channel_bytes channels.entry) ≡ Err fault) }
    ensures within { IfOk result (λ places.
        All (λ place. place < length names.now) places.items) }
{
    let count = match channels {
        Some(asked) => names_in(asked.as_bytes()),
        None => names.len(),
    };
    if redundancy_of(count).is_none() {
        return Err(ChannelFault::Count(count));
    }
    match channels {
        Some(asked) => chosen(names, asked.as_bytes(), count),
        None => Ok(all_of(count)),
    }
}

/// How many lines are judged, if they may be so many.
pub(crate) fn redundancy_of(count: usize) -> Option<Redundancy>
    ensures { result ≡ redundancy_of count }
{
    match count {
        1 => Some(Redundancy::One),
        3 => Some(Redundancy::Three),
        5 => Some(Redundancy::Five),
        _ => None,
    }
}

// How many names there are.
fn names_in(channels: &[u8]) -> usize
    ensures { result ≡ names_in channels.now }
{
    let mut commas = 0usize;
    for byte in channels {
        if *byte == b',' {
            commas += 1;
        }
    }
    commas + 1
}

// All places.
fn all_of(count: usize) -> ArrayVec<usize, 5>
    requires { count ≤ 5 }
    ensures { result.items ≡ upto count }
{
    let mut places = ArrayVec::new();
    for place in 0..count {
        places.push(place);
    }
    places
}

// The places of the channels with the names that are asked for, of which there are so many.
fn chosen(names: &[Vec<u8>], asked: &[u8], count: usize) -> Result<ArrayVec<usize, 5>, ChannelFault>
    requires { count ≤ 5 }
    ensures places { MatchResult result
        (λ places. chosen (texts_of names.now) asked.now count 0 [] ≡ Ok places.items)
        (λ fault. chosen (texts_of names.now) asked.now count 0 [] ≡ Err fault) }
    ensures within { IfOk result (λ places.
        All (λ place. place < length names.now) places.items) }
{
    let mut places = ArrayVec::new();
    for at in 0..count {
        let Some(place) = place_of(names, field_of(asked, at)) else {
            return Err(ChannelFault::Unknown(at));
        };
        if is_in(places.as_slice(), place) {
            return Err(ChannelFault::Twice(at));
        }
        places.push(place);
    }
    Ok(places)
}

// The place of the channel of this name.
fn place_of(names: &[Vec<u8>], asked: &[u8]) -> Option<usize>
    ensures place { result ≡ place_of (texts_of names.now) asked.now }
    ensures within { IfSome result (λ place. place < length names.now) }
{
    for (place, name) in names.iter().enumerate() {
        if name.as_slice() == asked {
            return Some(place);
        }
    }
    None
}

fn is_in(places: &[usize], place: usize) -> bool
    ensures { result ≡ is_in places.now place }
{
    for &other in places {
        if other == place {
            return true;
        }
    }
    false
}
