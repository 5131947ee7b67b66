// The fields behind the word of a line.
ghost use Rattle.std.specs.Prelude.{◌≡◌, true};
ghost use Rattle.schedule.specs.Parts.{starts};

use crate::parts::cut;

// The bytes of the fields, a tab before each; as an iterator, one field after the other.
#[derive(Clone, Copy)]
pub struct Fields<'a> {
    pub bytes: &'a [u8],
    pub ghost tabbed: { starts 9 bytes.now ≡ true },
}

impl<'a> Fields<'a> {
    ghost use Rattle.std.specs.Prelude.{IfSome, IfNone, false, length};
    ghost use Rattle.schedule.specs.Fields.{left};
    ghost use Rattle.schedule.specs.Said.{field};

    // The fields that the bytes are, if they are none or begin with a tab.
    pub(crate) fn new(bytes: &'a [u8]) -> Option<Fields<'a>>
        ensures fields { IfSome result (λ fields. fields.bytes.now ≡ bytes.now) }
        ensures none { IfNone result (starts 9 bytes.now ≡ false) }
    {
        match bytes {
            [] | [b'\t', ..] => Some(Fields { bytes }),
            _ => None,
        }
    }

    // How many fields there are: each has its tab. Not std's `count` of the iterator, which takes each field to count it.
    pub(crate) fn len(&self) -> usize
        ensures { result ≡ length (left self.now) }
    {
        let mut count = 0;
        for b in self.bytes {
            if *b == b'\t' {
                count += 1;
            }
        }
        count
    }

    // The field of index i, empty where there is none.
    pub(crate) fn at(mut self, i: usize) -> &'a [u8]
        ensures { result.now ≡ field (left self.entry) i }
    {
        self.nth(i).unwrap_or(&[])
    }
}

impl<'a> Iterator for Fields<'a> {
    ghost use Rattle.std.specs.Iterator.{YieldsFirstRef, item_count};
    ghost use Rattle.schedule.specs.Fields.{left};

    type Item = &'a [u8];

    ghost next_gives = { YieldsFirstRef left };

    ghost remaining = { item_count left };

    fn next(&mut self) -> Option<&'a [u8]> {
        let (_, rest) = self.bytes.split_first()?;
        let (field, others) = cut(rest, b'\t');
        self.bytes = others;
        Some(field)
    }
}
