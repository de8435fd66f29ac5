ghost use Rattle.std.specs.Prelude.{◌≡◌, IfOk, OnErr};
ghost use Rattle.std.specs.Result.{result_err};
ghost use Rattle.sheets.specs.Readers.{left_in};
ghost use Rattle.sheets.specs.Readings.{sheet_says, too_long, first_answer, later_answers, plain_answer, reading_at_end};
ghost use Rattle.sheets.specs.Spelled.{Faithful};

use crate::awaited::Awaited;
use crate::contents::first_field;
use crate::fault::{Fault, Layer};
use crate::field::Entry;
use base::Refusal;
use std::marker::Model;

// The most bytes that a sheet may have.
const LONGEST: usize = 60000;

// A sheet that is read field by field: how many bytes it has, those that are left, and what has to come next.
#[derive(Drop)]
pub struct Reader<'a> {
    total: usize,
    rest: &'a [u8],
    awaited: Awaited,
}

// No more bytes are left than the sheet has.
impl<'a> Model for Reader<'a> {
    ghost use Rattle.std.specs.Prelude.{◌≤◌, length};
    ghost use Rattle.sheets.specs.Readers.{Unread};

    ghost Value = { Unread };

    ghost view = { λ r. record { total = r.total; awaited = r.awaited; rest = r.rest } };

    ghost invariant = { λ r. length r.rest.now ≤ r.total };
}

impl<'a> Reader<'a> {
    // A reader at the start of a sheet, unless that is too long.
    pub fn new(sheet: &'a [u8]) -> Result<Reader<'a>, Fault>
        ensures answer { result_err result ≡ too_long sheet.now }
        ensures starts { IfOk result (λ reader. left_in reader ≡ sheet_says sheet.now) }
        ensures faithful { Faithful sheet.now }
    {
        if sheet.len() > LONGEST {
            return Err(Fault {
                layer: Layer::Sheet,
                refusal: Refusal::Long,
                place: 0,
            });
        }
        Ok(Reader {
            total: sheet.len(),
            rest: sheet,
            awaited: Awaited::Floor,
        })
    }

    // The next field, none at the end of the sheet, or the fault at which reading ends. A fault leaves the reader as it
    // was.
    pub fn next_field(&mut self) -> Result<Option<Entry<&'a [u8]>>, Fault>
        ensures answer { plain_answer result ≡ first_answer (left_in self.old) }
        ensures after { left_in self.new ≡ later_answers (left_in self.old) }
        ensures same { OnErr result (self.new ≡ self.old) }
    {
        let place = self.total - self.rest.len();
        if self.rest.is_empty() {
            return at_end(self.awaited, place);
        }
        let (field, rest) = Fault::located(
            Layer::Sheet,
            place,
            first_field(self.awaited, self.rest),
        )?;
        self.rest = rest;
        self.awaited = self.awaited.next();
        Ok(Some(Entry { place, field }))
    }
}

// The answer where no bytes are left: a sheet may not end before its second field.
fn at_end<'a>(awaited: Awaited, place: usize) -> Result<Option<Entry<&'a [u8]>>, Fault>
    ensures { plain_answer result ≡ first_answer (reading_at_end awaited place) }
{
    match awaited {
        Awaited::Call => Ok(None),
        Awaited::Floor | Awaited::Preference => Err(Fault {
            layer: Layer::Sheet,
            refusal: Refusal::Opening,
            place,
        }),
    }
}
