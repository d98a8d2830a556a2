//! What a text begins as.

ghost use Rattle.std.specs.Prelude.{◌≡◌};
ghost use Rattle.mrp_survey.specs.Fronts.{front_of, has_early_zero, is_utf16, is_workbook};

/// What a table's text begins as.
#[derive(Clone, Copy)]
pub enum Front {
    /// UTF-16: its byte order mark, or a 0 as the first or the second byte.
    Utf16,
    /// A workbook: the first bytes of a zip archive, or those of the older form.
    Workbook,
    /// Anything else.
    Other,
}

fn has_early_zero(text: &[u8]) -> bool
    ensures { result ≡ has_early_zero text.now }
{
    match text {
        [] => false,
        [first] => *first == 0,
        [first, second, ..] => *first == 0 || *second == 0,
    }
}

fn is_utf16(text: &[u8]) -> bool
    ensures { result ≡ is_utf16 text.now }
{
    text.starts_with(b"\xFF\xFE") || text.starts_with(b"\xFE\xFF") || has_early_zero(text)
}

fn is_workbook(text: &[u8]) -> bool
    ensures { result ≡ is_workbook text.now }
{
    text.starts_with(b"PK\x03\x04") || text.starts_with(b"\xD0\xCF\x11\xE0")
}

pub(crate) fn front_of(text: &[u8]) -> Front
    ensures { result ≡ front_of text.now }
{
    if is_utf16(text) {
        Front::Utf16
    } else if is_workbook(text) {
        Front::Workbook
    } else {
        Front::Other
    }
}
