//! Names: their numbers, which are taken, and how many.
use super::*;

/// Whether an empty list numbers two names in order.
fn are_numbered_in_order(symbols: &mut Symbols) -> bool {
    symbols.is_empty()
        && symbols.add("schedule") == Ok(SymId(0))
        && symbols.add("do_exit") == Ok(SymId(1))
        && !symbols.is_empty()
        && symbols.len() == 2
}

/// Whether these two alone are found, by name and by number.
fn are_found(symbols: &Symbols) -> bool {
    symbols.find("do_exit") == Some(SymId(1))
        && symbols.find("do_exi") == None
        && symbols.name(SymId(0)) == Some("schedule")
        && symbols.name(SymId(2)) == None
}

/// Whether an empty list numbers them in order, and then these two alone are found.
fn are_numbered_and_found(alloc: Global) -> bool {
    match no_names(alloc) {
        Some(mut symbols) => are_numbered_in_order(&mut symbols) && are_found(&symbols),
        None => false,
    }
}

#[test]
fn numbers_names_in_order(rt: HostRuntime) {
    assert!(rt; are_numbered_and_found(rt.alloc()) && SymId(65_535).index() == 65_535);
}

/// Whether an empty list takes these names.
fn takes_all(symbols: &mut Symbols, names: &[&str]) -> bool {
    for name in names {
        if symbols.add(*name).is_err() {
            return false;
        }
    }
    symbols.len() == names.len()
}

/// Whether a new one does.
fn are_taken(alloc: Global, names: &[&str]) -> bool {
    match no_names(alloc) {
        Some(mut symbols) => takes_all(&mut symbols, names),
        None => false,
    }
}

/// Whether an empty list calls a name bad, and keeps nothing of it.
fn is_bad(symbols: &mut Symbols, name: &str) -> bool {
    symbols.add(name) == Err(SymFault::BadName) && symbols.is_empty()
}

/// Whether it does so with each of these.
fn are_all_bad(symbols: &mut Symbols, names: &[&str]) -> bool {
    for name in names {
        if !is_bad(symbols, *name) {
            return false;
        }
    }
    true
}

/// Whether a new one does.
fn are_bad(alloc: Global, names: &[&str]) -> bool {
    match no_names(alloc) {
        Some(mut symbols) => are_all_bad(&mut symbols, names),
        None => false,
    }
}

/// Whether four names are taken, one of 512 bytes among them.
fn are_four_taken(alloc: Global) -> bool {
    match "f".repeat(alloc, 512) {
        Ok(longest) => are_taken(alloc, &["!", "~", "a.b$c", longest.as_str()]),
        Err(_) => false,
    }
}

/// Whether a name of 513 bytes is bad.
fn is_too_long(alloc: Global) -> bool {
    match "f".repeat(alloc, 513) {
        Ok(too_long) => are_bad(alloc, &[too_long.as_str()]),
        Err(_) => false,
    }
}

const BAD: [&str; 6] = ["", " ", "a b", "a\t", "\x7f", "caf\u{e9}"];

#[test]
fn takes_1_to_512_graphic_bytes(rt: HostRuntime) {
    assert!(rt; are_four_taken(rt.alloc()));
    assert!(rt; are_bad(rt.alloc(), &BAD) && is_too_long(rt.alloc()));
}

/// Whether the name `f` with this number is given it.
fn is_numbered(alloc: Global, symbols: &mut Symbols, number: u16) -> bool {
    match format!(in alloc; "f{number}") {
        Ok(name) => symbols.add(&name) == Ok(SymId(number)),
        Err(_) => false,
    }
}

/// Adds the names `f0` to `f4095`; whether each gets its number.
fn fill(alloc: Global, symbols: &mut Symbols) -> bool {
    for number in 0..4_096 {
        if !is_numbered(alloc, symbols, number) {
            return false;
        }
    }
    true
}

/// Whether 4,096 names are refused others, each for the first fault of it.
fn is_full(symbols: &mut Symbols) -> bool {
    symbols.add("f 0") == Err(SymFault::BadName)
        && symbols.add("f4095") == Err(SymFault::Doubled)
        && symbols.add("f4096") == Err(SymFault::TooMany)
        && symbols.len() == 4_096
        && symbols.find("f4095") == Some(SymId(4_095))
}

/// Whether an empty list takes 4,096 names, and is full then.
fn fills_up(alloc: Global) -> bool {
    match no_names(alloc) {
        Some(mut symbols) => fill(alloc, &mut symbols) && is_full(&mut symbols),
        None => false,
    }
}

#[test]
fn refuses_in_order_where_4096_names_are_there(rt: HostRuntime) {
    assert!(rt; fills_up(rt.alloc()));
}

/// The number that a name is given. Where an allocation fails, nothing changes, and the same call adds it.
fn added_again(symbols: &mut Symbols, name: &str) -> Result<SymId, SymFault> {
    let before = symbols.len();
    let added = symbols.add(name);
    if added == Err(SymFault::NoMemory) && symbols.len() == before && symbols.find(name) == None {
        symbols.add(name)
    } else {
        added
    }
}

/// Whether a name is added with this number, and the first name is found too.
fn is_added(symbols: &mut Symbols, name: &str, number: usize) -> bool {
    match added_again(symbols, name) {
        Ok(added) => {
            added.index() == number
                && symbols.name(added) == Some(name)
                && symbols.find("schedule") == Some(SymId(0))
        }
        Err(_) => false,
    }
}

/// Names, and their numbers.
const NAMES: [(&str, usize); 5] = [
    ("schedule", 0),
    ("do_exit", 1),
    ("vfs_read", 2),
    ("vfs_write", 3),
    ("kthread", 4),
];

/// Whether each of these names is added in its turn.
fn are_added(symbols: &mut Symbols) -> bool {
    for (name, number) in &NAMES {
        if !is_added(symbols, *name, *number) {
            return false;
        }
    }
    true
}

/// No names. Where an allocation fails, the same call makes them.
fn no_names_again(alloc: Global) -> Option<Box<Symbols>> {
    match no_names(alloc) {
        None => no_names(alloc),
        answer => answer,
    }
}

/// Whether they are added to an empty list.
fn are_added_to_none(alloc: Global) -> bool {
    match no_names_again(alloc) {
        Some(mut symbols) => are_added(&mut symbols),
        None => false,
    }
}

/// For `scripts/refuse-memory`: a failed allocation changes nothing, and the same call succeeds
/// after it.
#[test]
fn adds_again_after_a_failed_allocation(rt: HostRuntime) {
    assert!(rt; are_added_to_none(rt.alloc()));
}
