//! Completion queue entries of replies.

ghost use Rattle.std.specs.Prelude.{◌≡◌, ℕ, Some};
ghost use Rattle.nvme_entry.specs.Completion.{completion_bytes};
ghost use Rattle.nvme_entry.specs.CompletionFields.{completion_in};
ghost use Rattle.device_events.specs.CompletionEntries.{IsReadBack, tells_success, tells_want};

use nvme_entry::Completion;
use nvme_entry::laws::completions_tell;
use std::marker::Model;
use zone_state::{Status, StatusType};

/// A completion queue entry (NVMe Base 2.0, 3.3.3.2). It holds the completion, and its 16 bytes are made where they leave; a clause sees
/// these bytes.
#[derive(Clone, Copy, Debug, PartialEq, Eq)]
pub struct CompletionEntry {
    completion: Completion,
}

impl Model for CompletionEntry {
    ghost use Rattle.std.specs.Prelude.{◌≡◌, ℕ, List, Some};
    ghost use Rattle.nvme_entry.specs.Completion.{completion_bytes};
    ghost use Rattle.nvme_entry.specs.CompletionFields.{completion_in};
    ghost use Rattle.device_events.specs.CompletionEntries.{IsReadBack, completion_or_zeros};
    ghost use Rattle.std.proofs.Common.{ap};

    ghost Value = { List ℕ };

    ghost view = { λ e. completion_bytes e.completion };

    ghost invariant = { λ e. IsReadBack e.completion };

    ghost inverse = { λ bytes. record { completion = completion_or_zeros (completion_in bytes) } };

    ghost inverse_ok = { λ e is_read. ap (λ found. record { completion = completion_or_zeros found }) is_read };
}

impl CompletionEntry {
    /// The entry of a completion.
    pub fn new(completion: Completion) -> CompletionEntry
        ensures { result ≡ completion_bytes completion }
    {
        let Status { kind, code } = completion.status;
        read_back(
            completion.dw0,
            completion.dw1,
            completion.queue,
            completion.cid,
            kind,
            code,
        );
        CompletionEntry { completion }
    }

    /// Its bytes.
    pub fn bytes(&self) -> [u8; 16]
        ensures { result ≡ self.now }
    {
        self.completion.encode()
    }

    /// The completion that its bytes spell.
    pub fn completion(&self) -> Completion
        ensures spelled { self.now ≡ completion_bytes result }
        ensures told { completion_in self.now ≡ Some result }
    {
        self.completion
    }

    /// Was the command successful?
    pub fn is_success(&self) -> bool
        ensures { result ≡ tells_success self.now }
    {
        let Status { kind, code } = self.completion.status;
        is_success(self.completion.cid, kind, code)
    }

    /// Was memory wanting for it?
    pub fn is_want_of_memory(&self) -> bool
        ensures { result ≡ tells_want self.now }
    {
        let Status { kind, code } = self.completion.status;
        is_want_of_memory(self.completion.cid, kind, code)
    }
}

/// Is the status of a code and its type success? The identifier stands in the same dword.
fn is_success(_cid: u16, kind: StatusType, code: u8) -> bool
    ensures { (dw0 dw1 queue : ℕ) → result ≡ tells_success (completion_bytes
        (record { dw0 = dw0; dw1 = dw1; queue = queue; cid = _cid; status = record { kind = kind; code = code } })) }
{
    match kind {
        StatusType::Generic => code == 0,
        StatusType::CommandSpecific | StatusType::VendorSpecific => false,
    }
}

/// The completion of these fields is the one that its bytes spell. It does nothing: here the numbers have the ranges of their types.
fn read_back(dw0: u32, dw1: u32, queue: u16, cid: u16, kind: StatusType, code: u8)
    ensures { IsReadBack (record { dw0 = dw0; dw1 = dw1; queue = queue; cid = cid; status = record { kind = kind; code = code } }) }
{
    completions_tell();
}

/// Is the status of a code and its type that of want of memory?
fn is_want_of_memory(_cid: u16, kind: StatusType, code: u8) -> bool
    ensures { (dw0 dw1 queue : ℕ) → result ≡ tells_want (completion_bytes
        (record { dw0 = dw0; dw1 = dw1; queue = queue; cid = _cid; status = record { kind = kind; code = code } })) }
{
    match kind {
        StatusType::VendorSpecific => code == 0xC7,
        StatusType::Generic | StatusType::CommandSpecific => false,
    }
}
