//! Records that are the objects of a JSON list.
ghost use Rattle.std.specs.Prelude.{◌≡◌, ⊤, Some, IfOk, IfSome, true, false};
ghost use Rattle.liquid_data.specs.Lists as spec;
ghost use Rattle.liquid_data.specs.Lists.{FindsHead, FindsObject, FindsSign, HeadLeads};
ghost use Rattle.liquid_data.specs.Lists.{Reaches, ListSteps, list_left, list_step_at};
ghost use Rattle.liquid_data.specs.declared.list_objects.Place.TheVariants.{Front};

use crate::braces::Braces;
use std::alloc::{AllocError, Global};
use std::io::{BufRead, BufReader, Read};
use std::{fmt, io};

/// The objects of a JSON list that a reader gives, one after another.
#[derive(Drop)]
pub struct ListObjects<R> {
    reader: BufReader<R>,
    object: Vec<u8>,
    place: Place,
}

/// Where a list is read.
#[derive(Clone, Copy, Debug, Drop)]
enum Place {
    /// Before it.
    Front,
    /// After one of its objects.
    Within,
    /// After it, or at its fault.
    Over(Option<ListFault>),
}

/// What is wrong with a list.
#[derive(Clone, Copy, Debug, Drop)]
pub enum ListFault {
    /// No `[` begins it.
    NoList,
    /// One of its items is no object.
    NoObject,
    /// After one of its items stands neither a comma nor the `]` that ends it.
    NoComma,
    /// The text ends before the list does.
    Unclosed,
    /// Something stands after the list.
    More,
}

/// What follows the number of the record.
impl fmt::Display for ListFault {
    ghost output = { λ fault. Some (spec.list_fault_text fault) };

    fn fmt<W: fmt::Write>(&self, f: &mut fmt::Formatter<W>) -> fmt::Result {
        f.write_str(match self {
            ListFault::NoList => "the text is no JSON list: it doesn't begin with `[`",
            ListFault::NoObject => "this item of the list is no JSON object",
            ListFault::NoComma => "neither `,` nor `]` stands before it",
            ListFault::Unclosed => "the text ends before the list's `]`",
            ListFault::More => "more text stands after the list's `]`",
        })
    }
}

/// What is next in a list.
#[derive(Clone, Copy, Debug, Drop)]
enum Head {
    /// An object, whose opening brace was read.
    Object,
    /// The end of the list, whose `]` was read.
    End,
    Faulted(ListFault),
}

impl<R: Read + Drop> ListObjects<R> {
    /// All of the list is still to come.
    pub fn new(alloc: Global, reader: R) -> Result<ListObjects<R>, AllocError>
        ensures all { IfOk result (λ objects. list_left R.remaining objects ≡ R.remaining reader) }
        ensures front { IfOk result (λ objects. objects.place ≡ Front) }
    {
        match BufReader::new(alloc, reader) {
            Ok(reader) => Ok(ListObjects {
                reader,
                object: Vec::new(alloc),
                place: Place::Front,
            }),
            Err(_) => Err(AllocError),
        }
    }

    /// Reads the next object. Whether there is one. A fault of the list counts as one, and is its
    /// last.
    pub fn advance(&mut self) -> io::Result<bool>
        ensures { IfOk result (λ found. IfSome (list_left R.remaining self.old) (λ text.
            ListSteps R.remaining found self.new (list_step_at self.old.place text))) }
    {
        let place = self.next_place()?;
        self.place = place;
        Ok(!is_end(place))
    }

    /// Reads the next object, and answers where the list is read then.
    fn next_place(&mut self) -> io::Result<Place>
        ensures { IfOk result (λ place. IfSome (list_left R.remaining self.old) (λ text.
            Reaches R.remaining place self.new (list_step_at self.old.place text))) }
    {
        match self.place {
            Place::Front => {
                let head = front(&mut self.reader)?;
                self.after(head)
            }
            Place::Within => {
                let head = next_item(&mut self.reader)?;
                self.after(head)
            }
            Place::Over(_) => Ok(Place::Over(None)),
        }
    }

    /// Reads what a head begins, and answers where the list is read then.
    fn after(&mut self, head: Head) -> io::Result<Place>
        ensures { IfOk result (λ place.
            HeadLeads R.remaining head (list_left R.remaining self.old) place self.new) }
    {
        match head {
            Head::Object => match read_object(&mut self.reader, &mut self.object)? {
                true => Ok(Place::Within),
                false => Ok(Place::Over(Some(ListFault::Unclosed))),
            },
            Head::End => match next_sign(&mut self.reader)? {
                Some(_) => Ok(Place::Over(Some(ListFault::More))),
                None => Ok(Place::Over(None)),
            },
            Head::Faulted(fault) => Ok(Place::Over(Some(fault))),
        }
    }

    /// What is wrong with the list, where the record that was read last is its fault.
    pub fn fault(&self) -> Option<ListFault>
        ensures { result ≡ spec.fault_at self.now.place }
    {
        match self.place {
            Place::Over(fault) => fault,
            _ => None,
        }
    }

    /// The text of the object that was read last.
    pub fn object(&self) -> &[u8]
        ensures { result.now ≡ self.now.object.items }
    {
        self.object.as_slice()
    }
}

/// Whether the list is over, without a fault.
fn is_end(place: Place) -> bool
    ensures { result ≡ spec.is_end place }
{
    matches!(place, Place::Over(None))
}

/// Reads what begins a list.
fn front<R: Read>(reader: &mut BufReader<R>) -> io::Result<Head>
    ensures { IfOk result (λ head.
        FindsHead R.remaining reader.old reader.new head spec.front_of_list) }
{
    match next_sign(reader)? {
        Some(b'[') => first_item(reader),
        _ => Ok(Head::Faulted(ListFault::NoList)),
    }
}

/// Reads what stands after the list's `[`.
fn first_item<R: Read>(reader: &mut BufReader<R>) -> io::Result<Head>
    ensures { IfOk result (λ head.
        FindsHead R.remaining reader.old reader.new head spec.list_first_item) }
{
    Ok(match next_sign(reader)? {
        Some(b'{') => Head::Object,
        Some(b']') => Head::End,
        Some(_) => Head::Faulted(ListFault::NoObject),
        None => Head::Faulted(ListFault::Unclosed),
    })
}

/// Reads what stands after an object.
fn next_item<R: Read>(reader: &mut BufReader<R>) -> io::Result<Head>
    ensures { IfOk result (λ head.
        FindsHead R.remaining reader.old reader.new head spec.next_item) }
{
    match next_sign(reader)? {
        Some(b',') => object_after_comma(reader),
        Some(b']') => Ok(Head::End),
        Some(_) => Ok(Head::Faulted(ListFault::NoComma)),
        None => Ok(Head::Faulted(ListFault::Unclosed)),
    }
}

/// Reads what stands after a comma.
fn object_after_comma<R: Read>(reader: &mut BufReader<R>) -> io::Result<Head>
    ensures { IfOk result (λ head.
        FindsHead R.remaining reader.old reader.new head spec.object_after_comma) }
{
    Ok(match next_sign(reader)? {
        Some(b'{') => Head::Object,
        Some(_) => Head::Faulted(ListFault::NoObject),
        None => Head::Faulted(ListFault::Unclosed),
    })
}

/// Reads past white space, and then the byte that is none: `None` where the text ends.
fn next_sign<R: Read>(reader: &mut BufReader<R>) -> io::Result<Option<u8>>
    ensures { IfOk result (λ sign. FindsSign R.remaining reader.old reader.new sign) }
{
    let mut byte = [0];
    for _ in 0..u64::MAX {
        if reader.read(&mut byte)? == 0 {
            return Ok(None);
        }
        if !byte[0].is_ascii_whitespace() {
            return Ok(Some(byte[0]));
        }
    }
    Err(io::Error::from(io::ErrorKind::FileTooLarge))
}

/// Reads the rest of an object, whose opening brace was read. Whether its closing brace came.
fn read_object<R: Read>(reader: &mut BufReader<R>, object: &mut Vec<u8>) -> io::Result<bool>
    ensures { IfOk result (λ found.
        FindsObject R.remaining reader.old reader.new found object.new.items) }
{
    object.clear();
    object.push(b'{')?;
    let mut braces = Braces::Between(0);
    for _ in 0..u64::MAX {
        let start = object.len();
        if reader.read_until(b'}', object)? == 0 {
            return Ok(false);
        }
        braces = braces.after_all(&object.as_slice()[start..]);
        if braces.is_closed() {
            return Ok(true);
        }
    }
    Err(io::Error::from(io::ErrorKind::FileTooLarge))
}
