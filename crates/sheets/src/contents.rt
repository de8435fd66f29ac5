ghost use Rattle.std.specs.Prelude.{◌≡◌, true, length};
ghost use Rattle.sheets.specs.Fields.{contents_say, field_says, first_field, plain_field, plain_said};
ghost use Rattle.sheets.specs.Suits.{length_suits};

use crate::awaited::Awaited;
use crate::field::Field;
use crate::preference::PreferenceKind;
use crate::tag::Tag;
use base::Refusal;

// What contents that suit their tag say.
fn said<'a>(tag: Tag, contents: &'a [u8]) -> Result<Field<&'a [u8]>, Refusal>
    requires { length_suits tag (length contents.now) ≡ true }
    ensures { plain_said result ≡ contents_say tag contents.now }
{
    Ok(match tag {
        Tag::OpenFloor => Field::Open {
            width: contents[0],
            height: contents[1],
        },
        Tag::DrawnFloor => Field::Drawn {
            size: contents[0],
            links: &contents[1..],
        },
        Tag::Preference => Field::Prefer {
            preference: PreferenceKind::try_from(contents[0])?,
        },
        Tag::Place => Field::Place {
            mover: contents[0],
            tile: contents[1],
        },
        Tag::Assign => Field::Assign {
            mover: contents[0],
            goal: contents[1],
        },
        Tag::Lift => Field::Lift { mover: contents[0] },
        Tag::Beat => Field::Beat,
    })
}

// What a field says whose tag has this number, where one of kind `awaited` has to stand.
fn checked<'a>(awaited: Awaited, number: u8, contents: &'a [u8]) -> Result<Field<&'a [u8]>, Refusal>
    ensures { plain_said result ≡ field_says awaited number contents.now }
{
    let tag = Tag::try_from(number)?;
    if !tag.suits(contents.len()) {
        return Err(Refusal::Length);
    }
    if !awaited.admits(tag) {
        return Err(Refusal::Opening);
    }
    said(tag, contents)
}

// The first field of `bytes`, and the bytes after it.
pub(crate) fn first_field<'a>(
    awaited: Awaited,
    bytes: &'a [u8],
) -> Result<(Field<&'a [u8]>, &'a [u8]), Refusal>
    ensures { plain_field result ≡ first_field awaited bytes.now }
{
    let [number, high, low, rest @ ..] = bytes else {
        return Err(Refusal::Cut);
    };
    let length = usize::from(u16::from_be_bytes([*high, *low]));
    let (contents, after) = rest.split_at_checked(length).ok_or(Refusal::Cut)?;
    Ok((checked(awaited, *number, contents)?, after))
}
