// Bytes without white space in front.
ghost use Rattle.documents.specs.Reading.{NoBlank};

// Bytes that do not begin with white space.
#[derive(Clone, Copy)]
pub struct Bare<'a> {
    pub bytes: &'a [u8],
    pub ghost no_blank: { NoBlank bytes.now },
}
