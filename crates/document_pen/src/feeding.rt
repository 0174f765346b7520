//! Records that are put into a document's file.

ghost use Rattle.std.specs.Prelude.{◌≡◌, IfOk, IfSome, IsTrue, None};
ghost use Rattle.edit_stamps.specs.Edit.{has_states_below};
ghost use Rattle.kept_records.specs.Records.{IsBody, record_text};
ghost use Rattle.document_pen.specs.Feeding.{IsFed, IsKeptOf, IsNoRecord, IsPutBy, IsPutFault, RefusesPut, feed_clash, feed_refusal};

use delta_exchange::ReadFault;
use document_bodies::BodyFault;
use documents::{Document, DocumentFault, edit_told};
use edit_stamps::{Edit, Stamp};
use itoa::Buffer;
use kept_devices::Keep;
use kept_log::{Log, LogFault};
use kept_records::next_record;
use std::alloc::{AllocError, Global};
use std::marker::Model;
use std::slice;

/// What came of a record.
#[derive(Clone, Copy, Debug, PartialEq, Eq)]
pub enum Fed {
    /// Its edit is new, and the file has it.
    New,
    /// The document had its edit, or it is a first record, which names the rule alone.
    Known,
}

/// Why a record is not put into a document.
#[derive(Clone, Copy, Debug, PartialEq, Eq)]
pub enum FeedFault {
    /// The bytes are not just one record.
    NoRecord,
    /// Its body tells no edit under the document's rule.
    Body(BodyFault),
    /// The document has another edit with this stamp.
    SameStamp(Stamp),
    /// The system refused memory.
    Memory,
    /// The file failed, or had failed before: it takes nothing more.
    Write,
}

impl FeedFault {
    ghost use Rattle.std.specs.Prelude.{◌≡◌, IfOk};
    ghost use Rattle.document_pen.specs.Feeding.{feed_fault_text};

    /// Why, in words, with the number and the name of what is refused.
    pub fn text(&self, alloc: Global) -> Result<Vec<u8>, AllocError>
        ensures { IfOk result (λ text. text.items ≡ feed_fault_text self.now) }
    {
        match self {
            FeedFault::NoRecord => words(alloc, "it is no record"),
            FeedFault::Body(fault) => refused(alloc, *fault),
            FeedFault::SameStamp(stamp) => clash(alloc, *stamp),
            FeedFault::Memory => words(alloc, "out of memory"),
            FeedFault::Write => words(alloc, "the file failed"),
        }
    }
}

fn words(alloc: Global, text: &str) -> Result<Vec<u8>, AllocError>
    ensures { IfOk result (λ words. words.items ≡ text.now) }
{
    text.as_bytes().to_vec(alloc)
}

/// That a body tells no edit, by the number and the name of its refusal.
fn refused(alloc: Global, fault: BodyFault) -> Result<Vec<u8>, AllocError>
    ensures { IfOk result (λ text. text.items ≡ feed_refusal fault) }
{
    let mut text = Vec::new(alloc);
    text.extend_from_slice(b"refused ")?;
    text.extend_from_slice(Buffer::new().format(u64::from(fault.number())).as_bytes())?;
    text.push(b' ')?;
    text.extend_from_slice(fault.name().as_bytes())?;
    text.extend_from_slice(b": its record tells no edit under the rule")?;
    Ok(text)
}

/// That another edit has a stamp.
fn clash(alloc: Global, stamp: Stamp) -> Result<Vec<u8>, AllocError>
    ensures { IfOk result (λ text. text.items ≡ feed_clash stamp) }
{
    let mut text = Vec::new(alloc);
    text.extend_from_slice(b"refused 41 SameStamp ")?;
    text.extend_from_slice(Buffer::new().format(stamp.counter()).as_bytes())?;
    text.push(b' ')?;
    text.extend_from_slice(Buffer::new().format(u64::from(stamp.replica())).as_bytes())?;
    text.extend_from_slice(b": another edit has that counter and replica")?;
    Ok(text)
}

impl From<AllocError> for FeedFault {
    ghost use Rattle.std.specs.Prelude.{◌≡◌};
    ghost use Rattle.document_pen.specs.declared.feeding.FeedFault.TheVariants.{Memory};

    ghost from_gives = { λ _ fault. fault ≡ Memory };

    fn from(_error: AllocError) -> FeedFault {
        FeedFault::Memory
    }
}

/// What puts records into a document: the log of its file, and its edits. Contracts see it as a `FeedState`.
#[derive(Drop)]
pub struct Feeder<K: Keep> {
    alloc: Global,
    log: Log<K>,
    document: Document,
}

impl<K: Keep> Model for Feeder<K> {
    ghost use Rattle.document_pen.specs.Feeding.{FeedState};

    ghost Value = { FeedState };

    ghost view = { λ f. record { file = K.known f.log.keep; takes = f.log.state; document = f.document } };
}

impl<K: Keep> Feeder<K> {
    /// What puts records into a document, by the log of its file.
    pub fn of(alloc: Global, log: Log<K>, document: Document) -> Feeder<K>
        ensures { result ≡ record { file = K.known log.keep; takes = log.state; document = document } }
    {
        Feeder {
            alloc,
            log,
            document,
        }
    }

    /// The file.
    pub fn keep(&self) -> &K
        ensures { K.known result.now ≡ self.now.file }
    {
        &self.log.keep
    }

    /// Puts the edit of a record into the document. At `New` the file has the record, on the disk; a crash at any
    /// moment leaves the document with it or without. A first record, which names the rule alone, is passed over.
    /// Refused are, and nothing done then, in this order: bytes that are not just one record; a body that tells no
    /// edit under the document's rule; another edit of a stamp that the document has. Behind `Memory` the file is as
    /// it was; the document may have the edit, so that it is to take no more.
    pub fn take(&mut self, text: &[u8]) -> Result<Fed, FeedFault>
        ensures { IsFed text.now self.old self.new result }
    {
        let Some(body) = body_of(text) else {
            return Err(FeedFault::NoRecord);
        };
        match edit_told(self.alloc, self.document.rule(), body) {
            Ok(Some(edit)) => self.put(body, edit),
            Ok(None) => Ok(Fed::Known),
            Err(BodyFault::Read(ReadFault::Memory)) => Err(FeedFault::Memory),
            Err(fault) => Err(FeedFault::Body(fault)),
        }
    }

    /// Puts an edit into the document, and its body into the file where it is new.
    fn put(&mut self, body: &[u8], edit: Edit) -> Result<Fed, FeedFault>
        requires body { IsBody body.now }
        requires states { IsTrue (has_states_below self.old.document.rule.states edit) }
        ensures { IsPutBy body.now edit self.old self.new result }
    {
        match self.document.insert(edit) {
            Ok(true) => self.keep_body(body),
            Ok(false) => Ok(Fed::Known),
            Err(fault) => Err(put_fault(fault)),
        }
    }

    /// Puts the record of a body into the file.
    fn keep_body(&mut self, body: &[u8]) -> Result<Fed, FeedFault>
        requires { IsBody body.now }
        ensures kept { IsKeptOf body.now self.old self.new result }
        ensures left { self.new.document ≡ self.old.document }
    {
        let body = body.to_vec(self.alloc)?;
        match self.log.commit(self.alloc, slice::from_ref(&body)) {
            Ok(()) => Ok(Fed::New),
            Err(LogFault::Memory) => Err(FeedFault::Memory),
            Err(_) => Err(FeedFault::Write),
        }
    }
}

/// Why a document does not take an edit that has its rule's states.
fn put_fault(fault: DocumentFault) -> FeedFault
    requires { RefusesPut fault }
    ensures { IsPutFault fault result }
{
    match fault {
        DocumentFault::SameStamp(stamp) => FeedFault::SameStamp(stamp),
        DocumentFault::Memory => FeedFault::Memory,
        _ => unreachable!(),
    }
}

/// The body of the record that some bytes are, and nothing else.
fn body_of(text: &[u8]) -> Option<&[u8]>
    ensures some { IfSome result (λ body. IsBody body.now × (text.now ≡ record_text body.now)) }
    ensures none { result ≡ None → IsNoRecord text.now }
{
    match next_record(text) {
        Some((body, [])) => Some(body),
        Some(_) => None,
        None => None,
    }
}
