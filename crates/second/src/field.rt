// A field of the stream: tag, length and content.
use crate::input::Source;
use crate::reading::Ttsi;

// The longest content that is not bad.
pub(crate) const MOST: usize = 1024;

pub(crate) type Content = [u8; MOST];

// What a field says.
#[derive(Drop)]
pub(crate) enum Event<'a> {
    Add { kind: u8, ttsi: &'a Ttsi },
    Packet { lsp: u8, payload: &'a [u8] },
    Close { lsp: u8 },
    Server { lsp: u8 },
}

// A field that says none of these, or that the input breaks off.
#[derive(Clone, Copy)]
pub(crate) struct Bad;

#[derive(Clone, Copy)]
enum Tag {
    Add,
    Packet,
    Close,
    Server,
}

impl TryFrom<u8> for Tag {
    type Error = Bad;

    fn try_from(octet: u8) -> Result<Tag, Bad> {
        match octet {
            0x11 => Ok(Tag::Add),
            0x12 => Ok(Tag::Packet),
            0x13 => Ok(Tag::Close),
            0x14 => Ok(Tag::Server),
            _ => Err(Bad),
        }
    }
}

impl Tag {
    fn is_length(self, len: usize) -> bool {
        match self {
            Tag::Add => len == 25,
            Tag::Packet => (1..=MOST).contains(&len),
            Tag::Close => len == 1,
            Tag::Server => len == 2,
        }
    }

    // By a content of such a length. The DL of an add and the server octet go into no record, so they are not kept.
    fn event(self, content: &[u8]) -> Option<Event<'_>> {
        let (&first, rest) = content.split_first()?;
        match self {
            Tag::Add => Some(Event::Add {
                kind: first,
                ttsi: rest.first_chunk()?,
            }),
            Tag::Packet => Some(Event::Packet {
                lsp: first,
                payload: rest,
            }),
            Tag::Close => Some(Event::Close { lsp: first }),
            Tag::Server => (*rest.first()? <= 1).then_some(Event::Server { lsp: first }),
        }
    }
}

// What follows the tag.
fn rest<'a>(source: &mut Source, content: &'a mut Content, tag: u8) -> Option<Event<'a>> {
    let high = source.next()?;
    let low = source.next()?;
    let len = usize::from(u16::from_be_bytes([high, low]));
    let tag = Tag::try_from(tag).ok()?;
    if !tag.is_length(len) {
        return None;
    }
    let content = content.get_mut(..len)?;
    source.fill(content)?;
    tag.event(content)
}

// The next field's event, its content put into `content`; none at the end of the input.
pub(crate) fn read<'a>(
    source: &mut Source,
    content: &'a mut Content,
) -> Result<Option<Event<'a>>, Bad> {
    match source.next() {
        Some(tag) => rest(source, content, tag).map(Some).ok_or(Bad),
        None => Ok(None),
    }
}
