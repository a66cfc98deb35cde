// The fields of a line.
ghost use Rattle.std.specs.Prelude.{◌≡◌, not, [], ◌∷◌, length, position, MatchOption};
ghost use Rattle.std.specs.Iterator.{YieldsFirstRef, item_count};
ghost use Rattle.std.specs.List.{take_while};
ghost use Rattle.text.specs.Field.{blank, fields_of};

// What ends a field. The library's `is_ascii_whitespace` also takes the form feed.
fn is_blank(byte: u8) -> bool
    ensures { result ≡ blank byte }
{
    matches!(byte, b' ' | b'\t' | b'\n' | b'\r')
}

// Where the first field of a line begins, if there is one.
fn field_start(line: &[u8]) -> Option<usize>
    ensures { result ≡ position (λ byte. not (blank byte)) line.now }
{
    line.iter().position(|byte| !is_blank(*byte))
}

// How many bytes the field at the front of a line has.
fn field_len(line: &[u8]) -> usize
    ensures { result ≡ length (take_while (λ byte. not (blank byte)) line.now) }
{
    line.iter().take_while(|byte| !is_blank(**byte)).count()
}

/// The fields of a line that are still to be taken, one after another.
// A struct of its own: an iterator by `split` and `filter` carries a closure, whose type no function can name as its result. It
// has no model, for it may be copied, and a type with a lifetime that has a model may not be.
#[derive(Clone, Copy, Debug)]
pub struct Fields<'a> {
    rest: &'a [u8],
}

impl<'a> Fields<'a> {
    /// All the fields of a line.
    pub fn of(line: &'a [u8]) -> Fields<'a>
        ensures { result.rest.now ≡ line.now }
    {
        Fields { rest: line }
    }
}

impl<'a> Iterator for Fields<'a> {
    type Item = &'a [u8];

    ghost next_gives = { YieldsFirstRef (λ s. fields_of s.rest.now) };

    ghost remaining = { item_count (λ s. fields_of s.rest.now) };

    #[tactic(auto, using(crate::proofs::Cutting::no_field, crate::proofs::Cutting::one_field))]
    fn next(&mut self) -> Option<&'a [u8]> {
        // Where no field is left, the blanks at the end are not gone over again.
        let Some(start) = field_start(self.rest) else {
            self.rest = &[];
            return None;
        };
        let (_, line) = self.rest.split_at(start);
        let (field, rest) = line.split_at(field_len(line));
        self.rest = rest;
        Some(field)
    }
}
