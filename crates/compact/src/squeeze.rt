// The bytes of a text without the white space outside its strings.
ghost use Rattle.std.specs.Prelude.{◌≡◌};
ghost use Rattle.std.specs.Iterator.{YieldsFirst, item_count};
ghost use Rattle.grammar.specs.Compact.{moved, dropped, squeezed};
ghost use Rattle.grammar.specs.declared.kinds.Place.TheVariants.{Between};

use documents::is_blank;
use grammar::Place;

// Where the next byte stands.
fn place_after(place: Place, b: u8) -> Place
    ensures { result ≡ moved place b }
{
    match (place, b) {
        (Place::Between, b'"') => Place::InString,
        (Place::Between, _) | (Place::InString, b'"') => Place::Between,
        (Place::InString, b'\\') => Place::Escaped,
        (Place::InString | Place::Escaped, _) => Place::InString,
    }
}

// Whether the byte is white space outside strings.
fn is_dropped(place: Place, b: u8) -> bool
    ensures { result ≡ dropped place b }
{
    matches!(place, Place::Between) && is_blank(b)
}

// The bytes that stay, from a place in a text on, one by one.
#[derive(Drop)]
pub(crate) struct Squeezed<'a> {
    place: Place,
    rest: &'a [u8],
}

impl<'a> Squeezed<'a> {
    // From the front of a text on.
    pub(crate) fn new(doc: &'a [u8]) -> Squeezed<'a>
        ensures place { result.place ≡ Between }
        ensures rest { result.rest.now ≡ doc.now }
    {
        Squeezed {
            place: Place::Between,
            rest: doc,
        }
    }
}

impl Iterator for Squeezed<'_> {
    type Item = u8;

    ghost next_gives = { YieldsFirst (λ s. squeezed s.place s.rest.now) };

    ghost remaining = { item_count (λ s. squeezed s.place s.rest.now) };

    fn next(&mut self) -> Option<u8> {
        while let Some((b, rest)) = self.rest.split_first() {
            let place = self.place;
            self.place = place_after(place, *b);
            self.rest = rest;
            if !is_dropped(place, *b) {
                return Some(*b);
            }
        }
        None
    }
}
