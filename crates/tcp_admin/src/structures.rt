//! The data structures of Identify, byte by byte.

ghost use Rattle.std.specs.Prelude.{◌≡◌, ◌-◌, [], length};
ghost use Rattle.tcp_admin.specs.Identify.{admin_fields, command_sets_fields, controller_fields, descriptor_fields, fabrics_fields, identity_fields, list_fields, name_fields, namespace_fields, queue_fields, size_fields, zoned_controller_fields, zoned_fields};
ghost use Rattle.tcp_admin.specs.Pages.{laid, page};

use crate::admin::MOST_ADMIN_DATA;
use crate::pages::{put, put_u16, put_u32, put_u64, zero_page};
use crate::properties::VERSION;
use crate::subsystem::{NamespaceFormat, Subsystem};

/// A data structure of Identify.
pub(crate) type Page = [u8; MOST_ADMIN_DATA];

/// CMIC: the subsystem may have several controllers.
const SEVERAL_CONTROLLERS: u8 = 2;

/// NMIC: several controllers may have the namespace.
const SHARED: u8 = 1;

/// MDTS and ZASL: a command moves at most 2 ^ 5 times 4096 bytes.
const MOST_TRANSFER: u8 = 5;

/// The Command Set Identifier of zoned namespaces (ZNS 1.1, 1.4).
pub(crate) const ZONED: u8 = 2;

/// Identify Controller (NVMe Base 2.0, 5.17.2.1).
pub(crate) fn controller(id: u16, subsystem: &Subsystem) -> Page
    ensures { result ≡ page MOST_ADMIN_DATA (identity_fields id subsystem.now) }
{
    let mut page = zero_page();
    put_names(&mut page, subsystem);
    put_controller(&mut page, id);
    put_admin(&mut page);
    put_queues(&mut page);
    put_fabrics(&mut page, subsystem);
    page
}

/// SN, MN and FR.
fn put_names(page: &mut [u8], subsystem: &Subsystem)
    requires { length page.old ≡ MOST_ADMIN_DATA }
    ensures { page.new ≡ laid (name_fields subsystem.now) page.old }
{
    put(page, 4, &subsystem.serial_number);
    put(page, 24, &subsystem.model);
    put(page, 64, &subsystem.firmware);
}

/// CMIC, MDTS, CNTLID, VER and CNTRLTYPE.
fn put_controller(page: &mut [u8], id: u16)
    requires { length page.old ≡ MOST_ADMIN_DATA }
    ensures { page.new ≡ laid (controller_fields id) page.old }
{
    put(page, 76, &[SEVERAL_CONTROLLERS]);
    put(page, 77, &[MOST_TRANSFER]);
    put_u16(page, 78, id);
    put_u32(page, 80, VERSION);
    put(page, 111, &[1]);
}

/// ACL, AERL, FRMW, LPA and KAS.
fn put_admin(page: &mut [u8])
    requires { length page.old ≡ MOST_ADMIN_DATA }
    ensures { page.new ≡ laid admin_fields page.old }
{
    put(page, 258, &[3]);
    put(page, 259, &[3]);
    put(page, 260, &[3]);
    put(page, 261, &[2]);
    put_u16(page, 320, 10);
}

/// SQES, CQES, MAXCMD, NN and SGLS.
fn put_queues(page: &mut [u8])
    requires { length page.old ≡ MOST_ADMIN_DATA }
    ensures { page.new ≡ laid queue_fields page.old }
{
    put(page, 512, &[0x66]);
    put(page, 513, &[0x44]);
    put_u16(page, 514, 128);
    put_u32(page, 516, 1);
    put_u32(page, 536, 0x10_0001);
}

/// SUBNQN, IOCCSZ, IORCSZ and MSDBD.
fn put_fabrics(page: &mut [u8], subsystem: &Subsystem)
    requires { length page.old ≡ MOST_ADMIN_DATA }
    ensures { page.new ≡ laid (fabrics_fields subsystem.now) page.old }
{
    put(page, 768, subsystem.nqn.as_bytes());
    put_u32(page, 1792, 516);
    put_u32(page, 1796, 1);
    put(page, 1803, &[1]);
}

/// Identify Namespace (NVMe Base 2.0, 5.17.2.2): NSZE, NCAP, NUSE, NMIC, NGUID, and LBADS of LBA format 0.
pub(crate) fn namespace(subsystem: &Subsystem, format: &NamespaceFormat) -> Page
    ensures { result ≡ page MOST_ADMIN_DATA (namespace_fields subsystem.now format.now) }
{
    let mut page = zero_page();
    put_sizes(&mut page, format);
    put(&mut page, 30, &[SHARED]);
    put(&mut page, 104, &subsystem.nguid);
    put(&mut page, 130, &[format.block_size_log2]);
    page
}

/// NSZE, NCAP and NUSE.
fn put_sizes(page: &mut [u8], format: &NamespaceFormat)
    requires { length page.old ≡ MOST_ADMIN_DATA }
    ensures { page.new ≡ laid (size_fields format.now) page.old }
{
    put_u64(page, 0, format.blocks);
    put_u64(page, 8, format.blocks);
    put_u64(page, 16, format.blocks);
}

/// Namespace Identification Descriptors (NVMe Base 2.0, 5.17.2.4): NGUID, and CSI.
pub(crate) fn descriptors(subsystem: &Subsystem) -> Page
    ensures { result ≡ page MOST_ADMIN_DATA (descriptor_fields subsystem.now) }
{
    let mut page = zero_page();
    put(&mut page, 0, &[0x02]);
    put(&mut page, 1, &[16]);
    put(&mut page, 4, &subsystem.nguid);
    put(&mut page, 20, &[0x04]);
    put(&mut page, 21, &[1]);
    put(&mut page, 24, &[ZONED]);
    page
}

/// Identify Namespace of zoned namespaces (ZNS 1.1, 4.1.5.1): MAR, MOR, and ZSZE of LBA format 0.
pub(crate) fn zoned_namespace(format: &NamespaceFormat) -> Page
    ensures { result ≡ page MOST_ADMIN_DATA (zoned_fields format.now) }
{
    let mut page = zero_page();
    put_u32(&mut page, 4, zero_based(format.active_limit));
    put_u32(&mut page, 8, zero_based(format.open_limit));
    put_u64(&mut page, 2816, format.zone_blocks);
    page
}

/// A limit as it is told.
fn zero_based(limit: u32) -> u32
    ensures { result ≡ limit - 1 }
{
    limit.saturating_sub(1)
}

/// A list of namespaces, which has namespace 1, or none (NVMe Base 2.0, 5.17.2.3).
pub(crate) fn list(lists: bool) -> Page
    ensures { result ≡ page MOST_ADMIN_DATA (list_fields lists) }
{
    let mut page = zero_page();
    if lists {
        put_u32(&mut page, 0, 1);
    }
    page
}

/// Identify Controller of zoned namespaces (ZNS 1.1, 4.1.5.2): ZASL.
pub(crate) fn zoned_controller() -> Page
    ensures { result ≡ page MOST_ADMIN_DATA zoned_controller_fields }
{
    let mut page = zero_page();
    put(&mut page, 0, &[MOST_TRANSFER]);
    page
}

/// Identify Controller of the NVM command set, which is zeros.
pub(crate) fn nvm_controller() -> Page
    ensures { result ≡ page MOST_ADMIN_DATA [] }
{
    zero_page()
}

/// Identify I/O Command Set (NVMe Base 2.0, 5.17.2.20): the NVM command set with that of zoned namespaces.
pub(crate) fn command_sets() -> Page
    ensures { result ≡ page MOST_ADMIN_DATA command_sets_fields }
{
    let mut page = zero_page();
    put_u64(&mut page, 0, 1 + 4);
    page
}
