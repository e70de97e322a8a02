//! The laws of traces and of the inputs of checks. The functions do nothing: each has a law as its contract.
ghost use Rattle.lp_text.specs.BuildRows.{PartsCompute};
ghost use Rattle.lp_text.specs.CheckRows.{InputsCompute};
ghost use Rattle.lp_text.specs.Laws.{ReadsSpelledInputs, ReadsWhatIsSpelled, SpellsOne, SpellsOneInput};
ghost use Rattle.lp_text.specs.Rows.{TextsCompute};

/// What the definitions make of short texts: one of nine of the twelve causes, and a text of each form.
pub fn worked_texts()
    ensures { TextsCompute }
{}

/// A text is read exactly where it spells a trace, and as that trace.
pub fn what_is_spelled_is_read()
    ensures { ReadsWhatIsSpelled }
{}

/// A text spells at most one trace.
pub fn one_trace_a_text()
    ensures { SpellsOne }
{}

/// The input of a check is read exactly where it spells a trace and a certificate, and as these.
pub fn inputs_are_read_as_spelled()
    ensures { ReadsSpelledInputs }
{}

/// A text spells at most one trace and certificate.
pub fn one_input_a_text()
    ensures { SpellsOneInput }
{}

/// What the definitions make of short lists of parts: the trace, or the first place without a spelling.
pub fn worked_parts()
    ensures { PartsCompute }
{}

/// Inputs of a check whose certificates or faults are known, computed from the definitions.
pub fn worked_inputs()
    ensures { InputsCompute }
{}
