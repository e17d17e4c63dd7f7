// The reader: takes a text line by line and puts the schedule together.
ghost use Rattle.std.specs.Prelude.{IfOk};
ghost use Rattle.schedule.specs.Counts.{Allowed};

use crate::content::{Act, Items, Line};
use crate::expected::{Expected, Unread};
use crate::fault::Fault;
use crate::header::Header;
use crate::keyword::Keyword;
use crate::lines::Lines;
use crate::number::{decimal, raw_word};
use crate::schedule::Schedule;
use crate::scheme::Scheme;
use crate::string::bytes_of;
use crate::token::{Tokens, end, number, session, sixteen_bits};
use crate::word::{WordKind, encode};
use items::ByteString;
use std::alloc::Global;

const MOST_STEPS: u32 = 1_000_000;

// What has been read so far.
#[derive(Drop)]
struct Draft {
    heap: Global,
    // lines taken, counted here since the end of the text is told by them too
    number: usize,
    reclaimer: Option<Scheme>,
    sessions: Option<u16>,
    cells: Option<u16>,
    items: Option<Items>,
    labels: Vec<String>,
    too_long: bool,
    lines: Lines,
}

fn scheme(tokens: &mut Tokens<'_>) -> Result<Scheme, Expected> {
    tokens
        .next()?
        .and_then(Scheme::named)
        .ok_or(Expected::Scheme)
}

// The word of a kind, with the session and the place that the kind has.
fn word(kind: WordKind, tokens: &mut Tokens<'_>) -> Result<Act, Expected>
    ensures { IfOk result Allowed }
{
    let (session, place) = match kind {
        WordKind::Tidy => (0, 0),
        WordKind::Step | WordKind::Pop => (session(tokens)?, 0),
        _ => (session(tokens)?, sixteen_bits(tokens)?),
    };
    Ok(Act::Word(encode(kind, session, place)))
}

// A word line by its first token.
fn act(name: &str, tokens: &mut Tokens<'_>) -> Result<Act, Expected>
    ensures { IfOk result Allowed }
{
    if let Some(kind) = WordKind::named(name) {
        return word(kind, tokens);
    }
    match name {
        "steps" => {
            let session = session(tokens)?;
            let count = number(tokens, MOST_STEPS)?;
            Ok(Act::Steps { session, count })
        }
        "finish" => {
            let session = session(tokens)?;
            Ok(Act::Finish { session })
        }
        _ if name.starts_with("0x") => {
            let word = raw_word(name).ok_or(Expected::RawWord)?;
            Ok(Act::Word(word))
        }
        _ => Err(Expected::Name),
    }
}

fn number_item(_heap: Global, token: &str) -> Result<Option<u32>, Fault> {
    let number = decimal(token, u32::MAX).ok_or(Expected::Number { most: u32::MAX })?;
    Ok(Some(number))
}

// A byte string, or none where it is too long.
fn string_item(heap: Global, token: &str) -> Result<Option<ByteString>, Fault> {
    let bytes = bytes_of(heap, token)?;
    Ok(ByteString::new(bytes.as_slice()).ok())
}

impl Draft {
    fn new(heap: Global) -> Draft {
        Draft {
            heap,
            number: 0,
            reclaimer: None,
            sessions: None,
            cells: None,
            items: None,
            labels: Vec::new(heap),
            too_long: false,
            lines: Lines::new(heap),
        }
    }

    fn has(&self, header: Header) -> bool {
        match header {
            Header::Reclaimer => self.reclaimer.is_some(),
            Header::Sessions => self.sessions.is_some(),
            Header::Cells => self.cells.is_some(),
            Header::Items => self.items.is_some(),
        }
    }

    // The first header line that has not come yet.
    fn missing(&self) -> Option<Header> {
        Header::all()
            .iter()
            .copied()
            .find(|header| !self.has(*header))
    }

    // The items that the rest of the line writes. One that is too long is only noted, so that the rest of the text is still read.
    fn listed<T: Drop, F: Fn(Global, &str) -> Result<Option<T>, Fault>>(
        &mut self,
        tokens: &mut Tokens<'_>,
        item: F,
    ) -> Result<Vec<T>, Fault>
        requires { F.IsAlwaysCallable item }
    {
        let mut items = Vec::new(self.heap);
        while let Some(token) = tokens.next()? {
            match item(self.heap, token)? {
                Some(item) => {
                    items.push(item)?;
                    self.labels.push(String::from_str(self.heap, token)?)?;
                }
                None => self.too_long = true,
            }
        }
        Ok(items)
    }

    fn item_list(&mut self, tokens: &mut Tokens<'_>) -> Result<Items, Fault> {
        match tokens.next()? {
            Some("numbers") => Ok(Items::Numbers(self.listed(tokens, number_item)?)),
            Some("bytes") => Ok(Items::Bytes(self.listed(tokens, string_item)?)),
            _ => Err(Fault::Bad(Expected::ItemSort)),
        }
    }

    fn header(&mut self, header: Header, tokens: &mut Tokens<'_>) -> Result<(), Fault> {
        if !self.lines.is_empty() {
            return Err(Fault::Bad(Expected::HeaderFirst(header)));
        }
        if self.has(header) {
            return Err(Fault::Bad(Expected::HeaderOnce(header)));
        }
        match header {
            Header::Reclaimer => self.reclaimer = Some(scheme(tokens)?),
            Header::Sessions => self.sessions = Some(sixteen_bits(tokens)?),
            Header::Cells => self.cells = Some(sixteen_bits(tokens)?),
            Header::Items => self.items = Some(self.item_list(tokens)?),
        }
        Ok(end(tokens)?)
    }

    fn word_line(&mut self, name: &str, tokens: &mut Tokens<'_>) -> Result<(), Fault> {
        let act = act(name, tokens)?;
        end(tokens)?;
        if let Some(header) = self.missing() {
            return Err(Fault::Bad(Expected::Header(header)));
        }
        let number = self.number;
        self.lines.push(Line { number, act })
    }

    fn line(&mut self, bytes: &[u8]) -> Result<(), Fault> {
        let line = std::str::from_utf8(bytes).map_err(|_| Expected::Utf8)?;
        let mut tokens = Tokens::of(line);
        let Some(name) = tokens.next()? else {
            return Ok(());
        };
        match Header::named(name) {
            Some(header) => self.header(header, &mut tokens),
            None => self.word_line(name, &mut tokens),
        }
    }

    // Takes the next line of the text.
    fn take(&mut self, bytes: &[u8]) -> Result<(), Unread> {
        self.number = self.number.saturating_add(1);
        let number = self.number;
        self.line(bytes).map_err(|fault| fault.at(number))
    }

    // The schedule, once all lines have been taken.
    fn done(self) -> Result<Schedule, Unread> {
        let Draft {
            number,
            reclaimer,
            sessions,
            cells,
            items,
            labels,
            too_long,
            lines,
            ..
        } = self;
        let lacks = |header| Fault::Bad(Expected::Header(header)).at(number.saturating_add(1));
        let reclaimer = reclaimer.ok_or(lacks(Header::Reclaimer))?;
        let sessions = sessions.ok_or(lacks(Header::Sessions))?;
        let cells = cells.ok_or(lacks(Header::Cells))?;
        let items = items.ok_or(lacks(Header::Items))?;
        if too_long {
            return Err(Unread::TooLong);
        }
        Ok(Schedule {
            reclaimer,
            sessions,
            cells,
            items,
            labels,
            lines,
        })
    }
}

// A line without its LF and a CR before that. A CR at the end of a text without LF stays.
fn without_end(line: &[u8]) -> &[u8] {
    match line {
        [front @ .., b'\r', b'\n'] | [front @ .., b'\n'] => front,
        _ => line,
    }
}

// Reads a text, or says which line is the first bad one and what was expected there.
pub fn read(heap: Global, text: &[u8]) -> Result<Schedule, Unread> {
    let mut draft = Draft::new(heap);
    for line in text.split_inclusive(|b| *b == b'\n') {
        draft.take(without_end(line))?;
    }
    draft.done()
}
