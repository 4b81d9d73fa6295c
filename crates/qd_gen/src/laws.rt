//! Laws of the generated input. Each is the contract of a function that does nothing.
ghost use Rattle.qd_gen.specs.Examples.{WorkedExamples};
ghost use Rattle.qd_gen.specs.Framed.{IsReadAsAsked};

/// The definitions give what is wanted at some lines and batches.
pub fn worked_examples()
    ensures law { WorkedExamples }
{}

/// Law: up to a million lines, the input is read as the requests that it was made of, up to the end that it asks for.
pub fn input_is_read_as_asked()
    ensures law { IsReadAsAsked }
{}
