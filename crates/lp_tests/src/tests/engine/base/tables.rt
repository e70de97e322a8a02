//! Tables of a value for each number.
use super::*;
use lp_numbers::NumberTable;
use std::alloc::AllocError;

/// What a number has that was given no value, below one that was.
const BLANK: u32 = 7;

/// A number, and the value that it is given.
type Given = (u16, u32);

/// A number, and what it has.
type Value = (u16, Option<u32>);

/// The greatest number comes between two others, and one comes twice.
const GIVEN: [Given; 4] = [(3, 30), (65_535, 40), (0, 50), (3, 60)];

const VALUES: [Value; 5] = [
    (0, Some(50)),
    (1, Some(BLANK)),
    (3, Some(60)),
    (65_534, Some(BLANK)),
    (65_535, Some(40)),
];

/// After the first of `GIVEN` alone.
const FIRST_VALUES: [Value; 4] = [(0, Some(BLANK)), (3, Some(30)), (4, None), (65_535, None)];

/// Gives these numbers their values, one after the other.
fn give(table: &mut NumberTable<u32>, given: &[Given]) {
    for (number, value) in given {
        table.put(*number, *value, BLANK);
    }
}

/// Whether each of these numbers has that.
fn has_these(table: &NumberTable<u32>, values: &[Value]) -> bool {
    for (number, value) in values {
        if table.get(*number) != *value {
            return false;
        }
    }
    true
}

/// Whether a table has these values, once they were given.
fn give_and_has(table: &mut NumberTable<u32>, given: &[Given], values: &[Value]) -> bool {
    give(table, given);
    has_these(table, values)
}

/// Whether a table that was made now has them.
fn has_in_new(
    made: Result<NumberTable<u32>, AllocError>,
    given: &[Given],
    values: &[Value],
) -> bool {
    match made {
        Ok(mut table) => give_and_has(&mut table, given, values),
        Err(_) => false,
    }
}

/// An empty table. Where an allocation fails there is none, and the same call makes it.
fn new_or_again(alloc: Global) -> Result<NumberTable<u32>, AllocError> {
    match NumberTable::new(alloc) {
        Err(_) => NumberTable::new(alloc),
        answer => answer,
    }
}

#[test]
fn a_number_has_the_value_that_it_was_given_last(rt: HostRuntime) {
    assert!(rt; has_in_new(NumberTable::new(rt.alloc()), &GIVEN, &VALUES));
}

#[test]
fn a_number_above_all_that_were_given_a_value_has_none(rt: HostRuntime) {
    let none = [(0, None), (65_535, None)];
    assert!(rt; has_in_new(NumberTable::new(rt.alloc()), &[], &none));
    assert!(rt; has_in_new(NumberTable::new(rt.alloc()), &[(3, 30)], &FIRST_VALUES));
}

/// For `scripts/refuse-memory`: after a failed allocation there is none, and the same call makes it.
#[test]
fn a_table_is_made_again_after_a_failed_allocation(rt: HostRuntime) {
    assert!(rt; has_in_new(new_or_again(rt.alloc()), &GIVEN, &VALUES));
}
