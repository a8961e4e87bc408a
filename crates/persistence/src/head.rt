//! What a head says of its response.
ghost use Rattle.std.specs.Prelude.{◌≡◌};
ghost use Rattle.httparse.specs.Grammar.{ResponseHead, status_code};
ghost use Rattle.persistence.specs.Fields.{fields_of};
ghost use Rattle.persistence.specs.Framing.{body_kind as kind_of};
ghost use Rattle.persistence.specs.Told.{facts_of_head};
ghost use Rattle.persistence.specs.ReadingHeads.{AreWithin, fields_at, TellsHead};

pub(crate) mod elements;
mod fields;
pub(crate) mod head_step;
pub(crate) mod heads_step;
pub(crate) mod lines;

use crate::body::kind::BodyKind;
use crate::{Facts, Framing, Method, Version};
use fields::{ControlFields, control_fields};
use httparse::spans::{HeaderSpan, ResponseSpans};

/// What a head says of its response.
#[derive(Clone, Copy, Debug)]
pub(crate) struct Head {
    pub status: u16,
    pub version: Version,
    pub fields: ControlFields,
}

impl Head {
    /// What the head says that stands at these places of the text.
    pub fn at(text: &[u8], spans: &ResponseSpans, fields: &[HeaderSpan]) -> Head
        requires { AreWithin text.now fields.now }
        ensures { (head : ResponseHead) → spans.now.version ≡ head.minor
            → spans.now.code ≡ status_code head
            → fields_at text.now fields.now ≡ fields_of head → TellsHead head result }
    {
        let version = if spans.version == 0 {
            Version::V10
        } else {
            Version::V11
        };
        Head {
            status: spans.code,
            version,
            fields: control_fields(text, fields),
        }
    }

    /// How the response's body is read.
    pub fn body_kind(&self, method: Method) -> BodyKind
        ensures { (head : ResponseHead) → TellsHead head self.now → result ≡ kind_of method head }
    {
        let is_head = matches!(method, Method::Head);
        if is_head || self.status == 101 || self.status == 204 || self.status == 304 {
            BodyKind::NoBody
        } else if self.fields.transfer_encoding {
            if self.fields.chunked {
                BodyKind::Chunked
            } else {
                BodyKind::UntilClose
            }
        } else if self.fields.content_length {
            BodyKind::Counted
        } else {
            BodyKind::UntilClose
        }
    }

    /// The facts of the response.
    pub fn facts(&self, method: Method, request_close: bool, whole: bool, surplus: bool) -> Facts
        ensures { (head : ResponseHead) → TellsHead head self.now
            → result ≡ facts_of_head method request_close head whole surplus }
    {
        let framing = match self.version {
            Version::V10 if self.fields.transfer_encoding => Framing::Faulty,
            _ => self.body_kind(method).framing(),
        };
        Facts {
            version: self.version,
            close: self.fields.close,
            keep_alive: self.fields.keep_alive,
            request_close,
            framing,
            both_lengths: self.fields.transfer_encoding && self.fields.content_length,
            upgraded: self.status == 101,
            whole,
            surplus,
        }
    }
}
