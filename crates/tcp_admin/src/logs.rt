//! Get Log Page.

ghost use Rattle.std.specs.Prelude.{◌≡◌, ◌≤◌, ◌+◌, ◌==◌, [], length, vec_capacity, vec_len};
ghost use Rattle.common_definitions.specs.Checks.{first_failed, unless_failed};
ghost use Rattle.tcp_admin.specs.Answers.{Adds};
ghost use Rattle.tcp_admin.specs.Logs.{admin_commands, effects_fields, firmware_fields, health_fields, is_within, log_checks, log_page_of, log_part, page_bytes, part_bytes, part_in, program_commands, wanted_bytes, zoned_commands};
ghost use Rattle.tcp_admin.specs.Pages.{laid, page};

use crate::admin::MOST_ADMIN_DATA;
use crate::answer::check_length;
use crate::fields::{u32_at, u64_at};
use crate::pages::{append_part, put, put_u16, put_u32, zero_page};
use crate::status::INVALID_LOG_PAGE;
use crate::structures::{Page, ZONED};
use crate::subsystem::Subsystem;
use tcp_pdus::ENTRY_BYTES;
use zone_state::Status;

/// CSUPP of an entry of Commands Supported and Effects: the command is supported.
const SUPPORTED: u32 = 1;

/// CSUPP and LBCC: it may change blocks, too.
const SUPPORTED_CHANGES: u32 = 1 + 2;

/// The log pages that there are (NVMe Base 2.0, 5.16.1).
#[derive(Clone, Copy, Debug, PartialEq, Eq)]
pub(crate) enum LogPage {
    /// Error Information.
    ErrorInformation,
    /// SMART / Health Information.
    SmartHealth,
    /// Firmware Slot Information.
    FirmwareSlot,
    /// Commands Supported and Effects.
    CommandEffects,
}

impl LogPage {
    /// The page with an identifier, if there is one.
    fn of(lid: u8) -> Option<LogPage>
        ensures { result ≡ log_page_of lid }
    {
        match lid {
            0x01 => Some(LogPage::ErrorInformation),
            0x02 => Some(LogPage::SmartHealth),
            0x03 => Some(LogPage::FirmwareSlot),
            0x05 => Some(LogPage::CommandEffects),
            _ => None,
        }
    }

    /// How many bytes it has.
    fn bytes(self) -> u16
        ensures value { result ≡ page_bytes self }
        ensures most { result ≤ 4096 }
    {
        match self {
            LogPage::ErrorInformation => 64,
            LogPage::SmartHealth | LogPage::FirmwareSlot => 512,
            LogPage::CommandEffects => 4096,
        }
    }
}

/// A part of a log page, which a Get Log Page asks for.
#[derive(Clone, Copy, Debug, PartialEq, Eq)]
pub(crate) struct LogPart {
    /// The page.
    pub page: LogPage,
    /// How many bytes are wanted.
    pub size: u64,
    /// The place in the page of the first of them.
    pub offset: u64,
    /// CSI, the command set whose page it is, where each has one.
    pub command_set: u8,
}

impl LogPart {
    /// What a Get Log Page asks for, of this page.
    fn read(page: LogPage, entry: &[u8; ENTRY_BYTES]) -> LogPart
        ensures { result ≡ part_in page entry.now }
    {
        LogPart {
            page,
            size: wanted_bytes(entry),
            offset: u64_at(entry, 48),
            command_set: entry[59],
        }
    }

    /// The checks of how much is wanted, and from where on.
    fn check(self, entry: &[u8; ENTRY_BYTES]) -> Result<(), Status>
        ensures { result ≡ unless_failed (first_failed (log_checks self entry.now)) tt }
    {
        if self.size > MOST_ADMIN_DATA as u64 || self.offset % 4 != 0 || !self.is_within() {
            return Err(Status::INVALID_FIELD_IN_COMMAND);
        }
        check_length(entry, self.size as usize)
    }

    /// Does it begin within the page, or at its end?
    fn is_within(self) -> bool
        ensures { result ≡ is_within self }
    {
        self.offset <= u64::from(self.page.bytes())
    }

    /// Adds its bytes.
    pub(crate) fn append(self, subsystem: &Subsystem, out: &mut Vec<u8>)
        requires few { self.size ≤ MOST_ADMIN_DATA }
        requires within { self.offset ≤ page_bytes self.page }
        requires room { vec_len out.old + self.size ≤ vec_capacity out.old }
        ensures added { Adds out.old out.new (part_bytes self subsystem.now) }
        ensures len { vec_len out.new ≡ vec_len out.old + self.size }
    {
        let offset = self.offset as usize;
        let size = self.size as usize;
        match self.page {
            LogPage::ErrorInformation => append_part(out, &errors(), offset, size),
            LogPage::SmartHealth => append_part(out, &health(), offset, size),
            LogPage::FirmwareSlot => append_part(out, &firmware(subsystem), offset, size),
            LogPage::CommandEffects => append_part(out, &effects(self.command_set), offset, size),
        }
    }
}

/// How many bytes NUMDL and NUMDU ask for.
fn wanted_bytes(entry: &[u8; ENTRY_BYTES]) -> u64
    ensures { result ≡ wanted_bytes entry.now }
{
    4 * (u64::from(u32_at(entry, 42)) + 1)
}

/// What a Get Log Page asks for.
///
/// # Errors
///
/// That of the first check that fails: Invalid Log Page where there is no such page; Invalid Field in Command where more than 4096
/// bytes are wanted, or the offset is no multiple of 4 or lies behind the page's end; Data SGL Length Invalid.
pub(crate) fn log_part(entry: &[u8; ENTRY_BYTES]) -> Result<LogPart, Status>
    ensures { result ≡ log_part entry.now }
{
    let page = LogPage::of(entry[40]).ok_or(INVALID_LOG_PAGE)?;
    let part = LogPart::read(page, entry);
    part.check(entry)?;
    Ok(part)
}

/// Error Information (NVMe Base 2.0, 5.16.1.2): one entry, which tells of no error.
fn errors() -> [u8; 64]
    ensures { result ≡ page 64 [] }
{
    zero_page()
}

/// SMART / Health Information (NVMe Base 2.0, 5.16.1.3): the Composite Temperature in kelvins.
fn health() -> [u8; 512]
    ensures { result ≡ page 512 health_fields }
{
    let mut page = zero_page();
    put_u16(&mut page, 1, 300);
    page
}

/// Firmware Slot Information (NVMe Base 2.0, 5.16.1.4): slot 1 is active, with this revision.
fn firmware(subsystem: &Subsystem) -> [u8; 512]
    ensures { result ≡ page 512 (firmware_fields subsystem.now) }
{
    let mut page = zero_page();
    put(&mut page, 0, &[1]);
    put(&mut page, 8, &subsystem.firmware);
    page
}

/// Commands Supported and Effects of a command set (NVMe Base 2.0, 5.16.1.6).
fn effects(csi: u8) -> Page
    ensures { result ≡ page MOST_ADMIN_DATA (effects_fields (csi == ZONED)) }
{
    let mut page = zero_page();
    put_admin_commands(&mut page);
    if csi == ZONED {
        put_zoned_commands(&mut page);
        put_program_commands(&mut page);
    }
    page
}

/// Get Log Page, Identify, Abort, Set Features, Get Features, Asynchronous Event Request and Keep Alive.
fn put_admin_commands(page: &mut [u8])
    requires { length page.old ≡ MOST_ADMIN_DATA }
    ensures { page.new ≡ laid admin_commands page.old }
{
    put_u32(page, 4 * 0x02, SUPPORTED);
    put_u32(page, 4 * 0x06, SUPPORTED);
    put_u32(page, 4 * 0x08, SUPPORTED);
    put_u32(page, 4 * 0x09, SUPPORTED);
    put_u32(page, 4 * 0x0A, SUPPORTED);
    put_u32(page, 4 * 0x0C, SUPPORTED);
    put_u32(page, 4 * 0x18, SUPPORTED);
}

/// Write, Read, Zone Management Send, Zone Management Receive and Zone Append.
fn put_zoned_commands(page: &mut [u8])
    requires { length page.old ≡ MOST_ADMIN_DATA }
    ensures { page.new ≡ laid zoned_commands page.old }
{
    put_u32(page, 1024 + 4 * 0x01, SUPPORTED_CHANGES);
    put_u32(page, 1024 + 4 * 0x02, SUPPORTED);
    put_u32(page, 1024 + 4 * 0x79, SUPPORTED_CHANGES);
    put_u32(page, 1024 + 4 * 0x7A, SUPPORTED);
    put_u32(page, 1024 + 4 * 0x7D, SUPPORTED_CHANGES);
}

/// Run, Load and Result.
fn put_program_commands(page: &mut [u8])
    requires { length page.old ≡ MOST_ADMIN_DATA }
    ensures { page.new ≡ laid program_commands page.old }
{
    put_u32(page, 1024 + 4 * 0xC0, SUPPORTED_CHANGES);
    put_u32(page, 1024 + 4 * 0xC1, SUPPORTED);
    put_u32(page, 1024 + 4 * 0xC2, SUPPORTED);
}
