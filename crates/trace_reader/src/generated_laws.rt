//! A law of generated inputs. It is a contract of a function that does nothing.
ghost use Rattle.trace_reader.specs.GeneratedLaws.{GeneratedInputIsOne};

/// A number gives one input of each size.
pub fn generated_input_is_one()
    ensures { GeneratedInputIsOne }
{}
