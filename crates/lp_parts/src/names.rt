//! Whose an entry is, and which list it is.
use std::marker::Brand;

/// Says whose an entry is: a number's, or nobody's.
pub trait Keying<E> {
    ghost use Rattle.std.specs.Prelude.{ℕ, Option};

    ghost key: { E → Option ℕ };
}

/// Stands for one list. Each call of a program picks it.
pub trait Place {
    ghost use Rattle.atomic_table.specs.Seated.{TableId};

    ghost table: { TableId };
}

impl Place for Brand {
    ghost use Rattle.lp_parts.specs.Parts.{no_table};

    ghost table = { no_table };
}
