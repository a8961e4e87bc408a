//! What an exchange is to do, and the memory that it needs.

ghost use Rattle.std.specs.Prelude.{◌≡◌, ◌<◌, [], length, IfOk, IfErr, OnOk, string_bytes};
ghost use Rattle.exchange.specs.Request.{method_word, close_line};
ghost use Rattle.exchange.specs.Answers.{IsPrepared, job_text, moved_job, wanted};

use conn_key::Target;
use conn_log::Want;
use persistence::{Method, ResponseReader};
use std::alloc::{AllocError, Global};
use std::fmt::Write;

/// The most bytes that one read takes.
const READ_BYTES: usize = 4_096;

/// One request: which transfer wants what of which site, and what it asks for there.
#[derive(Debug, Drop)]
pub struct Job {
    /// The index of its host in the cache.
    pub site: u32,
    pub want: Want,
    pub method: Method,
    pub target: Target,
}

impl Job {
    /// Returns the text of its request. The request line names the target's path, the Host field
    /// its host, with the port unless that is 80, and if the want forbids reuse the request has the
    /// connection option `close` (RFC 9112, sections 3 and 3.2; RFC 9110, section 7.6.1).
    ///
    /// # Errors
    ///
    /// There is no memory for it.
    pub fn request_text(&self, alloc: Global) -> Result<String, AllocError>
        ensures { IfOk result (λ text. string_bytes text ≡ job_text self.now) }
    {
        let mut text = String::new(alloc);
        write_request(&mut text, self)?;
        Ok(text)
    }
}

/// A job with all the memory that its exchange needs: the text of its request, the reader of its
/// response, and a buffer for what is read.
#[derive(Drop)]
pub struct Prepared {
    pub(crate) site: u32,
    pub(crate) want: Want,
    pub(crate) method: Method,
    pub(crate) text: String,
    pub(crate) reader: ResponseReader,
    pub(crate) buffer: Vec<u8>,
    pub(crate) retried: bool,
}

impl Prepared {
    /// Makes the text of the job's request, and takes all memory.
    ///
    /// # Errors
    ///
    /// There is no memory for it.
    pub fn new(alloc: Global, job: &Job) -> Result<Prepared, AllocError>
        ensures { IfOk result (IsPrepared job.now) }
    {
        let text = job.request_text(alloc)?;
        Prepared::of_text(alloc, job, job.site, job.want.transfer, text)
    }

    /// Takes all memory for the job at that site and as that transfer, whose request has this text.
    ///
    /// Requires: `text` is the text of the job's request.
    ///
    /// # Errors
    ///
    /// There is no memory for it.
    pub fn new_as(
        alloc: Global,
        job: &Job,
        site: u32,
        transfer: u64,
        text: &str,
    ) -> Result<Prepared, AllocError>
        requires text { text.now ≡ job_text job.now }
        ensures { IfOk result (IsPrepared (moved_job site transfer job.now)) }
    {
        let text = String::from_str(alloc, text)?;
        Prepared::of_text(alloc, job, site, transfer, text)
    }

    // Takes all memory but that of the text.
    fn of_text(
        alloc: Global,
        job: &Job,
        site: u32,
        transfer: u64,
        text: String,
    ) -> Result<Prepared, AllocError>
        requires text { string_bytes text ≡ job_text job.now }
        ensures { IfOk result (IsPrepared (moved_job site transfer job.now)) }
    {
        let Ok(reader) = ResponseReader::new(alloc, job.method, job.want.forbid_reuse) else {
            return Err(AllocError);
        };
        let buffer = vec![in alloc; 0; READ_BYTES]?;
        Ok(Prepared {
            site,
            want: Want {
                transfer,
                ..job.want
            },
            method: job.method,
            text,
            reader,
            buffer,
            retried: false,
        })
    }

    /// The same memory, with another job: the text takes more only if it does not fit, and
    /// reader and buffer take none.
    ///
    /// # Errors
    ///
    /// There is no memory for the text. What was prepared comes back, so that another job may be
    /// prepared with it.
    ///
    /// Asked of the caller: it has room to read into, as all that was prepared has.
    pub fn again(self, job: &Job) -> Result<Prepared, (Prepared, AllocError)>
        requires buffer { 0 < length self.buffer.items }
        ensures prepared { IfOk result (IsPrepared job.now) }
        ensures buffer { IfErr result (λ refused. 0 < length refused.0.buffer.items) }
    {
        let mut parts = self;
        parts.text.clear();
        if let Err(error) = write_request(&mut parts.text, job) {
            return Err((parts, error));
        }
        parts.set_job(job, job.site, job.want.transfer);
        Ok(parts)
    }

    /// Prepares another job in the same memory, at that site and as that transfer. `text` is copied
    /// only if it differs from the text that is there.
    ///
    /// # Errors
    ///
    /// There is no memory for the text. What was prepared comes back, so that another job may be
    /// prepared with it.
    ///
    /// Requires: it has room to read into, as all that was prepared has, and `text` is the text of
    /// the job's request.
    pub fn again_as(
        self,
        job: &Job,
        site: u32,
        transfer: u64,
        text: &str,
    ) -> Result<Prepared, (Prepared, AllocError)>
        requires buffer { 0 < length self.buffer.items }
        requires text { text.now ≡ job_text job.now }
        ensures prepared { IfOk result (IsPrepared (moved_job site transfer job.now)) }
        ensures buffer { IfErr result (λ refused. 0 < length refused.0.buffer.items) }
    {
        let mut parts = self;
        if parts.text.as_str() != text {
            parts.text.clear();
            if let Err(error) = parts.text.push_str(text) {
                return Err((parts, error));
            }
        }
        parts.set_job(job, site, transfer);
        Ok(parts)
    }

    // Prepares all but the text for that job, at that site and as that transfer.
    fn set_job(&mut self, job: &Job, site: u32, transfer: u64)
        requires room { 0 < length self.old.buffer.items }
        requires text { string_bytes self.old.text ≡ job_text job.now }
        ensures { IsPrepared (moved_job site transfer job.now) self.new }
    {
        self.reader.reset(job.method, job.want.forbid_reuse);
        self.site = site;
        self.want = Want {
            transfer,
            ..job.want
        };
        self.method = job.method;
        self.retried = false;
    }

    /// The text of the request.
    pub fn text(&self) -> &str
        ensures { result.now ≡ string_bytes self.now.text }
    {
        self.text.as_str()
    }

    /// The number of its transfer.
    pub fn transfer(&self) -> u64
        ensures { result ≡ self.now.want.transfer }
    {
        self.want.transfer
    }

    /// Whether a new connection was asked for, to try its request once more: the first was reused,
    /// and failed or was ended before any byte of a response.
    pub fn retried(&self) -> bool
        ensures { result ≡ self.now.retried }
    {
        self.retried
    }

    // What the transfer wants of the cache: once the request is sent again, a new connection.
    pub(crate) fn wanted(&self) -> Want
        ensures { result ≡ wanted self.now }
    {
        Want {
            fresh: self.want.fresh || self.retried,
            ..self.want
        }
    }
}

// The word of a method.
fn method_word(method: Method) -> &'static str
    ensures { result.now ≡ method_word method }
{
    match method {
        Method::Get => "GET",
        Method::Head => "HEAD",
    }
}

// The line of the connection option `close`, if it is asked for.
fn close_line(close: bool) -> &'static str
    ensures { result.now ≡ close_line close }
{
    if close { "Connection: close\r\n" } else { "" }
}

// Writes the text of the job's request into an empty text.
fn write_request(text: &mut String, job: &Job) -> Result<(), AllocError>
    requires { string_bytes text.old ≡ [] }
    ensures { OnOk result (string_bytes text.new ≡ job_text job.now) }
{
    let word = method_word(job.method);
    let path = job.target.path.as_str();
    let host = job.target.host.as_str();
    let option = close_line(job.want.forbid_reuse);
    let port = job.target.port;
    if port == 80 {
        write!(
            text,
            "{word} {path} HTTP/1.1\r\nHost: {host}\r\n{option}\r\n"
        )
    } else {
        write!(
            text,
            "{word} {path} HTTP/1.1\r\nHost: {host}:{port}\r\n{option}\r\n"
        )
    }
}
