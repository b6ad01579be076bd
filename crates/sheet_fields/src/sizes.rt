// A sheet's sizes by its form (document 01, "The sheet"): a match each, so that a form's sizes are constants where it is known.
ghost use Rattle.std.specs.Prelude.{◌≡◌};
ghost use Rattle.sheet.specs.Form.{word_bytes, width_most, record_bytes, records_in_block, inputs_end};

use sheet::Form;

// The bytes of a difference or a constant.
pub fn word_bytes(form: Form) -> usize
    ensures { result ≡ word_bytes form }
{
    match form {
        Form::Narrow => 4,
    }
}

// The largest width.
pub fn width_most(form: Form) -> usize
    ensures { result ≡ width_most form }
{
    match form {
        Form::Narrow => 32,
    }
}

// The bytes of a line's record.
pub fn record_bytes(form: Form) -> usize
    ensures { result ≡ record_bytes form }
{
    match form {
        Form::Narrow => 16,
    }
}

// The records of a line block.
pub fn records_in_block(form: Form) -> usize
    ensures { result ≡ records_in_block form }
{
    match form {
        Form::Narrow => 31,
    }
}

// Where the header's input differences end.
pub fn inputs_end(form: Form) -> usize
    ensures { result ≡ inputs_end form }
{
    8 + 8 * word_bytes(form)
}
