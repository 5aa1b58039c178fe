// The forms of a listing, and what is in one of them alone.
ghost use Rattle.std.specs.Prelude.{◌≡◌, OnOk, OnErr};
ghost use Rattle.ij_io.specs.Bytes.{Adds, AddsPart};
ghost use Rattle.ij_io.specs.Causes.{HasCause};
ghost use Rattle.net_list.specs.Forms as forms;

use ij_io::{Sink, StoreFault, put_decimal};

/// The form of a listing.
#[derive(Clone, Copy, Debug, PartialEq, Eq, Drop)]
pub enum ListFormat {
    /// Words with blanks between.
    Text,
    /// An object of JSON in each line (RFC 8259).
    Json,
}

/// What is in a form.
pub(crate) fn text_or_json<'a>(format: ListFormat, text: &'a [u8], json: &'a [u8]) -> &'a [u8]
    ensures { result.now ≡ forms.text_or_json format text.now json.now }
{
    match format {
        ListFormat::Text => text,
        ListFormat::Json => json,
    }
}

/// Writes what is in a form.
pub(crate) fn put_text_or_json<K: Sink>(
    format: ListFormat,
    text: &[u8],
    json: &[u8],
    k: &mut K,
) -> Result<(), StoreFault>
    ensures whole { OnOk result
        (Adds (K.taken k.old) (K.taken k.new) (forms.text_or_json format text.now json.now)) }
    ensures part { OnErr result
        (AddsPart (K.taken k.old) (K.taken k.new) (forms.text_or_json format text.now json.now)) }
    ensures cause { HasCause (K.faults k.old) (K.faults k.new) result StoreFault.Failed }
{
    k.write(text_or_json(format, text, json))
}

/// Writes a field that is a number.
pub(crate) fn put_count<K: Sink>(
    format: ListFormat,
    text: &[u8],
    json: &[u8],
    count: u64,
    k: &mut K,
) -> Result<(), StoreFault>
    ensures whole { OnOk result
        (Adds (K.taken k.old) (K.taken k.new) (forms.counted format text.now json.now count)) }
    ensures part { OnErr result
        (AddsPart (K.taken k.old) (K.taken k.new) (forms.counted format text.now json.now count)) }
    ensures cause { HasCause (K.faults k.old) (K.faults k.new) result StoreFault.Failed }
{
    put_text_or_json(format, text, json, k)?;
    put_decimal(count, k)?;
    Ok(())
}
