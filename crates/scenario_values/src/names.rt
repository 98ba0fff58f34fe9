//! The names of a plant's readers.

ghost use Rattle.std.specs.Prelude.{◌≡◌, ◌≤◌, length, map, ◌∷◌, ◌++◌, [], string_bytes, not, IsTrue, IfOk};
ghost use Rattle.std.specs.List.{list_all, list_any};
ghost use Rattle.std.specs.Str.{bytes_eq};
ghost use Rattle.serde_json.specs.View.{view};
ghost use Rattle.scenario_json.specs.Keys.{texts_of};
ghost use Rattle.scenario_values.specs.Names.{is_name_byte, one_to_sixteen, is_name, name_in, names_in};
ghost use Rattle.scenario_values.specs.PlantValues.{readers_in};
ghost use Rattle.text_faults.specs.Refusals.{IsUnlessMemory};

use crate::plant_shape::NAME;
use crate::plant_values::readers_in;
use indexmap::IndexSet;
use scenario_json::text_at;
use serde_json::Value;
use std::alloc::{AllocError, Global};
use text_faults::{LineFault, Refusal};

fn is_name_byte(byte: u8) -> bool
    ensures { result ≡ is_name_byte byte }
{
    matches!(byte, b'a'..=b'z' | b'0'..=b'9' | b'_' | b'-')
}

fn one_to_sixteen(count: usize) -> bool
    ensures { result ≡ one_to_sixteen count }
{
    1 <= count && count <= 16
}

fn are_name_bytes(text: &str) -> bool
    ensures { result ≡ list_all is_name_byte text.now }
{
    text.bytes().all(is_name_byte)
}

/// Whether a reader may have this name: 1 to 16 of a to z, 0 to 9, _ and -.
#[tactic(auto, unfolding(crate::specs::Names::is_name))]
pub fn is_name(text: &str) -> bool
    ensures { result ≡ is_name text.now }
{
    one_to_sixteen(text.len()) && are_name_bytes(text)
}

/// The name that a reader's object gives; empty, which is no name, if it gives none.
#[tactic(auto, unfolding(crate::specs::Names::name_in))]
pub fn name_in(reader: &Value) -> &str
    ensures { result.now ≡ name_in (view reader.now) }
{
    text_at(reader, NAME.name).unwrap_or("")
}

fn have_names(readers: &[Value]) -> bool
    ensures { result ≡ list_all (λ reader. is_name (name_in (view reader))) readers.now }
{
    readers.iter().all(|reader| is_name(name_in(reader)))
}

// Adds a name behind the others if it is new, and answers whether it is.
fn add(alloc: Global, names: &mut IndexSet<String>, name: &str) -> Result<bool, AllocError>
    ensures new { IfOk result (λ is_new. is_new
        ≡ not (list_any (λ other. bytes_eq name.now (string_bytes other)) names.old.keys)) }
    ensures added { IfOk result (λ is_new. IsTrue is_new
        → texts_of names.new.keys ≡ texts_of names.old.keys ++ name.now ∷ []) }
{
    let name = String::from_str(alloc, name)?;
    Ok(names.insert(name)?)
}

fn reader_names(readers: &[Value], alloc: Global) -> Result<IndexSet<String>, LineFault>
    ensures { IsUnlessMemory (λ names. texts_of names.keys)
        (names_in (map view readers.now)) result }
{
    if !one_to_sixteen(readers.len()) || !have_names(readers) {
        return Err(LineFault::Refused(Refusal::Names));
    }
    let mut names = IndexSet::with_capacity(alloc, readers.len())?;
    for reader in readers {
        if !add(alloc, &mut names, name_in(reader))? {
            return Err(LineFault::Refused(Refusal::Names));
        }
    }
    Ok(names)
}

/// The names that the objects of readers give, in order: 1 to 16, none twice.
///
/// `Refused` with `Names` if they are others, `Memory` if there was none.
pub fn names_among(alloc: Global, readers: &[Value]) -> Result<IndexSet<String>, LineFault>
    ensures names { IsUnlessMemory (λ names. texts_of names.keys)
        (names_in (map view readers.now)) result }
    ensures count { IfOk result (λ names. length names.keys ≡ length readers.now) }
    ensures least { IfOk result (λ names. 1 ≤ length names.keys) }
    ensures most { IfOk result (λ names. length names.keys ≤ 16) }
{
    reader_names(readers, alloc)
}

/// The names of a plant line's readers, in order: 1 to 16, none twice.
///
/// `Refused` with `Names` if they are others, `Memory` if there was none.
pub fn names_of(alloc: Global, value: &Value) -> Result<IndexSet<String>, LineFault>
    ensures names { IsUnlessMemory (λ names. texts_of names.keys)
        (names_in (readers_in (view value.now))) result }
    ensures count { IfOk result (λ names.
        length names.keys ≡ length (readers_in (view value.now))) }
    ensures least { IfOk result (λ names. 1 ≤ length names.keys) }
    ensures most { IfOk result (λ names. length names.keys ≤ 16) }
{
    names_among(alloc, readers_in(value))
}
