//! Names of handlers, and sets of names in the order of their declaration.

ghost use Rattle.std.specs.Prelude.{List, ◌≡◌, ◌+◌, ◌<◌, ◌≤◌, ◌++◌, true, None, Some, map, take, length, IfOk, IfErr, IfSome, OnErr, OnOk, IsOk};
ghost use Rattle.std.specs.List.{list_all, list_any};
ghost use Rattle.std.specs.Str.{bytes_eq};
ghost use Rattle.std.specs.String.{string_bytes};
ghost use Rattle.dr_graph.specs.Meaning.Name.{Name, texts, given, is_name_byte, is_good_name as is_good_name_of, is_named, index_of, new_names};
ghost use Rattle.dr_graph.specs.Meaning.Declaration.{name_fault, name_faults, declaring_fault, stranger_fault};

use crate::fault::GraphFault;
use indexmap::IndexSet;
use std::alloc::{AllocError, Global};

/// The most handlers that a graph has (this project's own limit).
pub const MAX_HANDLERS: usize = 16;

/// The most bytes that a name has (this project's own limit).
pub const MAX_NAME_LEN: usize = 32;

fn are_name_bytes(bytes: &[u8]) -> bool
    ensures { result ≡ list_all is_name_byte bytes.now }
{
    bytes
        .iter()
        .all(|b| b.is_ascii_alphanumeric() || *b == b'_' || *b == b'-')
}

fn is_good_name(name: &str) -> bool
    ensures { result ≡ is_good_name_of name.now }
{
    1 <= name.len() && name.len() <= MAX_NAME_LEN && are_name_bytes(name.as_bytes())
}

fn is_among(names: &[&str], name: &str) -> bool
    ensures { result ≡ list_any (λ n. bytes_eq name.now n.now) names.now }
{
    names.iter().any(|other| name == *other)
}

/// Whether a name is declared, or stands among those before it.
fn is_known(declared: &IndexSet<String>, earlier: &[&str], name: &str) -> bool
    ensures { result ≡ is_named (texts declared.now.keys ++ given earlier.now) name.now }
{
    declared.contains(name) || is_among(earlier, name)
}

/// What refuses to declare a name, where others are known or not.
fn fault_of(name: &str, is_known: bool) -> Option<GraphFault>
    ensures { (names : List Name) → is_known ≡ is_named names name.now → result ≡ name_fault names name.now }
{
    if !is_good_name(name) {
        Some(GraphFault::BadName)
    } else if is_known {
        Some(GraphFault::Duplicate)
    } else {
        None
    }
}

/// The first fault of some names that are to be declared. It takes no memory, and looks for each name among all before it.
fn slow_fault(declared: &IndexSet<String>, names: &[&str]) -> Option<GraphFault>
    ensures { result ≡ name_faults (texts declared.now.keys) (given names.now) }
{
    for (i, name) in names.iter().enumerate() {
        let fault = fault_of(*name, is_known(declared, &names[..i], *name));
        if fault.is_some() {
            return fault;
        }
    }
    None
}

/// Whether a name is declared, or is in a set of others.
fn is_in_either(declared: &IndexSet<String>, seen: &IndexSet<String>, name: &str) -> bool
    ensures { result ≡ is_named (texts declared.now.keys ++ texts seen.now.keys) name.now }
{
    is_declared(declared, name) || is_declared(seen, name)
}

/// The first fault of some names that are to be declared, found by a set of the names before each.
fn quick_fault(
    alloc: Global,
    declared: &IndexSet<String>,
    names: &[&str],
) -> Result<Option<GraphFault>, AllocError>
    ensures { IfOk result (λ fault. fault ≡ name_faults (texts declared.now.keys) (given names.now)) }
{
    let mut seen = IndexSet::new(alloc);
    for name in names {
        let fault = fault_of(*name, is_in_either(declared, &seen, *name));
        if fault.is_some() {
            return Ok(fault);
        }
        seen.insert(String::from_str(alloc, *name)?)?;
    }
    Ok(None)
}

/// The first fault of some names that are to be declared. Where memory runs out it only takes longer.
fn first_fault(alloc: Global, declared: &IndexSet<String>, names: &[&str]) -> Option<GraphFault>
    ensures { result ≡ name_faults (texts declared.now.keys) (given names.now) }
{
    match quick_fault(alloc, declared, names) {
        Ok(fault) => fault,
        Err(_) => slow_fault(declared, names),
    }
}

/// Refuses names that cannot be declared, by the first cause.
pub(crate) fn check_new(
    alloc: Global,
    declared: &IndexSet<String>,
    names: &[&str],
) -> Result<(), GraphFault>
    requires { length declared.now.keys ≤ MAX_HANDLERS }
    ensures refused { IfSome (declaring_fault (texts declared.now.keys) (given names.now)) (λ fault. result ≡ Err fault) }
    ensures accepted { IsOk result → declaring_fault (texts declared.now.keys) (given names.now) ≡ None }
    ensures cause { IfErr result (λ fault. declaring_fault (texts declared.now.keys) (given names.now) ≡ Some fault) }

    // What an accepted call may rely on.
    ensures some { IsOk result → 0 < length names.now }
    ensures free { IsOk result → name_faults (texts declared.now.keys) (given names.now) ≡ None }
    ensures room { IsOk result → length declared.now.keys + length names.now ≤ MAX_HANDLERS }
{
    if names.is_empty() {
        return Err(GraphFault::EmptyGroup);
    }
    if let Some(fault) = first_fault(alloc, declared, names) {
        return Err(fault);
    }
    if names.len() > MAX_HANDLERS - declared.len() {
        return Err(GraphFault::TooMany);
    }
    Ok(())
}

fn is_declared(declared: &IndexSet<String>, name: &str) -> bool
    ensures { result ≡ is_named (texts declared.now.keys) name.now }
{
    declared.contains(name)
}

fn are_all_declared(declared: &IndexSet<String>, names: &[&str]) -> bool
    ensures { result ≡ list_all (λ name. is_named (texts declared.now.keys) name.now) names.now }
{
    names.iter().all(|name| is_declared(declared, *name))
}

/// Refuses a name that is not declared.
pub(crate) fn check_declared(declared: &IndexSet<String>, names: &[&str]) -> Result<(), GraphFault>
    ensures refused { IfSome (stranger_fault (texts declared.now.keys) (given names.now)) (λ fault. result ≡ Err fault) }
    ensures accepted { IsOk result → list_all (is_named (texts declared.now.keys)) (given names.now) ≡ true }
    ensures cause { IfErr result (λ fault. stranger_fault (texts declared.now.keys) (given names.now) ≡ Some fault) }
{
    if are_all_declared(declared, names) {
        Ok(())
    } else {
        Err(GraphFault::Stranger)
    }
}

fn is_group_declared(declared: &IndexSet<String>, group: &[String]) -> bool
    ensures { result ≡ list_all (λ name. is_named (texts declared.now.keys) (string_bytes name)) group.now }
{
    group
        .iter()
        .all(|name| is_declared(declared, name.as_str()))
}

/// Refuses a group that has a name which is not declared.
pub(crate) fn check_group(declared: &IndexSet<String>, group: &[String]) -> Result<(), GraphFault>
    ensures refused { IfSome (stranger_fault (texts declared.now.keys) (texts group.now)) (λ fault. result ≡ Err fault) }
    ensures accepted { IsOk result → list_all (is_named (texts declared.now.keys)) (texts group.now) ≡ true }
    ensures cause { IfErr result (λ fault. stranger_fault (texts declared.now.keys) (texts group.now) ≡ Some fault) }
{
    if is_group_declared(declared, group) {
        Ok(())
    } else {
        Err(GraphFault::Stranger)
    }
}

/// The place of a declared name.
pub(crate) fn place_of(declared: &IndexSet<String>, name: &str) -> usize
    ensures { result ≡ index_of (texts declared.now.keys) name.now }
{
    declared.get_index_of(name).unwrap_or(declared.len())
}

/// The places of a group's names.
pub(crate) fn places_of(
    alloc: Global,
    declared: &IndexSet<String>,
    group: &[String],
) -> Result<Vec<usize>, AllocError>
    ensures { IfOk result (λ places. places.items ≡ map (index_of (texts declared.now.keys)) (texts group.now)) }
{
    let mut places = Vec::new(alloc);
    for name in group {
        places.push(place_of(declared, name.as_str()))?;
    }
    Ok(places)
}

/// Adds the names that are not there yet, each once; where memory runs out some of them are left at the end.
pub(crate) fn add_names(
    alloc: Global,
    names: &mut IndexSet<String>,
    more: &[&str],
) -> Result<(), AllocError>
    ensures added { OnOk result (texts names.new.keys ≡ texts names.old.keys ++ new_names (texts names.old.keys) (given more.now)) }
    ensures kept { take (length names.old.keys) names.new.keys ≡ names.old.keys }
{
    for name in more {
        names.insert(String::from_str(alloc, *name)?)?;
    }
    Ok(())
}

/// Adds the names of a group that are not there yet.
pub(crate) fn add_group(
    alloc: Global,
    names: &mut IndexSet<String>,
    group: &[String],
) -> Result<(), AllocError>
    ensures { OnOk result (texts names.new.keys ≡ texts names.old.keys ++ new_names (texts names.old.keys) (texts group.now)) }
{
    for name in group {
        names.insert(String::from_str(alloc, name.as_str())?)?;
    }
    Ok(())
}

/// Declares names that were checked, or leaves those that are declared as they were.
pub(crate) fn declare(
    alloc: Global,
    declared: &mut IndexSet<String>,
    names: &[&str],
) -> Result<(), AllocError>
    requires { name_faults (texts declared.old.keys) (given names.now) ≡ None }
    ensures declared { OnOk result (texts declared.new.keys ≡ texts declared.old.keys ++ given names.now) }
    ensures unchanged { OnErr result (declared.new.keys ≡ declared.old.keys) }
{
    let before = declared.len();
    match add_names(alloc, declared, names) {
        Ok(()) => Ok(()),
        Err(refused) => {
            declared.truncate(before);
            Err(refused)
        }
    }
}
