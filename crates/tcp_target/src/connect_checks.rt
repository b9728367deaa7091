//! The checks of a Connect.

ghost use Rattle.std.specs.Prelude.{◌≡◌, IfOk, IsTrue, OnOk, length};
ghost use Rattle.tcp_target.specs.ConnectChecks.{connect_answer, data_answer, has_controller, has_queue, is_free, is_of_host, queue_answer};
ghost use Rattle.tcp_target.specs.ConnectRequest.{has_size};
ghost use Rattle.tcp_target.specs.Connected.{IsAllowed, connected, invalid_in_data, invalid_in_entry};

use crate::connect_data::{CONNECT_DATA_BYTES, ConnectData, Host, is_equal, is_same_host};
use crate::connect_request::{ANY_CONTROLLER, ConnectRequest};
use crate::connected::{Connected, Controllers, NamedController};
use crate::outcomes::refusal;
use crate::qualified_name::name;
use tcp_connection::{MOST_IN_CAPSULE, Outcome, Queue};
use zone_state::{Status, StatusType};

/// The data is not as long as the command's data is (Data SGL Length Invalid; NVMe Base 2.0, 3.3.3.2).
pub const DATA_SGL_LENGTH_INVALID: Status = Status {
    kind: StatusType::Generic,
    code: 0x0F,
};

/// RECFMT isn't 0 (NVMe Base 2.0, 3.3.3.2).
pub const CONNECT_INCOMPATIBLE_FORMAT: Status = Status {
    kind: StatusType::CommandSpecific,
    code: 0x80,
};

/// There are as many controllers as there may be; the host may try again (NVMe Base 2.0, 3.3.3.2).
pub const CONNECT_CONTROLLER_BUSY: Status = Status {
    kind: StatusType::CommandSpecific,
    code: 0x81,
};

/// A parameter is invalid; Dword 0 tells which (NVMe Base 2.0, 3.3.3.2).
pub const CONNECT_INVALID_PARAMETERS: Status = Status {
    kind: StatusType::CommandSpecific,
    code: 0x82,
};

/// The most I/O queues of a controller (profile).
pub const MOST_IO_QUEUES: u16 = 8;

/// What a Connect comes to, with its data, where the target has this NQN and these controllers.
///
/// # Errors
///
/// What completes the command, of the first check that fails: Connect Incompatible Format for another RECFMT than 0; Data SGL Length
/// Invalid for other than 1024 bytes of data; Connect Invalid Parameters, with the place of the parameter in Dword 0, for another
/// SUBNQN, for a CNTLID that isn't FFFFh with QID 0, or names no controller of the same host with another, for a QID over 8, of a
/// controller that isn't ready, or of a queue that has a connection, and for a SQSIZE of 0, or over 31 with QID 0 or 127 with another;
/// Connect Controller Busy where QID 0 would need one more controller than there may be.
pub fn answer_connect(
    request: ConnectRequest,
    bytes: &[u8],
    subsystem_nqn: &[u8],
    controllers: Controllers,
) -> Result<Connected, Outcome>
    ensures answer { result ≡ connect_answer request bytes.now subsystem_nqn.now controllers }
    ensures allowed { IfOk result (λ connected. IsAllowed connected) }
    ensures whole { OnOk result (length bytes.now ≡ CONNECT_DATA_BYTES) }
{
    if request.record_format != 0 {
        return Err(refusal(CONNECT_INCOMPATIBLE_FORMAT));
    }
    if bytes.len() != CONNECT_DATA_BYTES {
        return Err(refusal(DATA_SGL_LENGTH_INVALID));
    }
    answer_data(
        request,
        &ConnectData::read(bytes),
        subsystem_nqn,
        controllers,
    )
}

/// The checks of the data, and those behind them.
fn answer_data(
    request: ConnectRequest,
    given: &ConnectData,
    subsystem_nqn: &[u8],
    controllers: Controllers,
) -> Result<Connected, Outcome>
    ensures answer { result ≡ data_answer request given.now subsystem_nqn.now controllers }
    ensures allowed { IfOk result (λ connected. IsAllowed connected) }
{
    if !is_equal(name(&given.subsystem_nqn), subsystem_nqn) {
        return Err(invalid_in_data(256));
    }
    if !has_controller(request, given, &controllers.named) {
        return Err(invalid_in_data(16));
    }
    answer_queue(request, given.controller, controllers)
}

/// The checks of the queue, and of what there is for it.
fn answer_queue(
    request: ConnectRequest,
    controller: u16,
    controllers: Controllers,
) -> Result<Connected, Outcome>
    ensures answer { result ≡ queue_answer request controller controllers }
    ensures allowed { IfOk result (λ connected. IsAllowed connected) }
{
    if !has_queue(request, &controllers.named) {
        return Err(invalid_in_entry(42));
    }
    if !request.has_size() {
        return Err(invalid_in_entry(44));
    }
    if request.queue != 0 {
        return Ok(connected(request, controller));
    }
    match controllers.free {
        Some(free) => Ok(connected(request, free)),
        None => Err(refusal(CONNECT_CONTROLLER_BUSY)),
    }
}

/// Is CNTLID any controller's for an admin queue, and for an I/O queue one that the same host made?
fn has_controller(
    request: ConnectRequest,
    given: &ConnectData,
    named: &Option<NamedController>,
) -> bool
    ensures { result ≡ has_controller request given.now named.now }
{
    if request.queue == 0 {
        given.controller == ANY_CONTROLLER
    } else {
        is_of_host(named, &given.host)
    }
}

/// Did this host make the controller that is named?
fn is_of_host(named: &Option<NamedController>, host: &Host) -> bool
    ensures { result ≡ is_of_host named.now host.now }
{
    match named {
        Some(named) => is_same_host(&named.host, host),
        None => false,
    }
}

/// Is it the admin queue, or one of the I/O queues, which is free?
fn has_queue(request: ConnectRequest, named: &Option<NamedController>) -> bool
    ensures { result ≡ has_queue request named.now }
{
    request.queue == 0 || request.queue <= MOST_IO_QUEUES && is_free(named)
}

/// Is the controller that is named ready, and has its queue no connection?
fn is_free(named: &Option<NamedController>) -> bool
    ensures { result ≡ is_free named.now }
{
    match named {
        Some(named) => named.is_ready && !named.has_connection,
        None => false,
    }
}

/// The queue that is set up.
fn connected(request: ConnectRequest, controller: u16) -> Connected
    requires { IsTrue (has_size request) }
    ensures value { result ≡ connected request controller }
    ensures allowed { IsAllowed result }
{
    Connected {
        controller,
        queue: Queue {
            id: request.queue,
            entries: request.size + 1,
            has_flow_control: request.has_flow_control(),
        },
        in_capsule: MOST_IN_CAPSULE,
    }
}

/// The refusal of a parameter that stands so many bytes behind the front of the entry.
fn invalid_in_entry(place: u16) -> Outcome
    ensures { result ≡ invalid_in_entry place }
{
    Outcome {
        status: CONNECT_INVALID_PARAMETERS,
        dw0: u32::from(place),
        dw1: 0,
    }
}

/// The refusal of a parameter that stands so many bytes behind the front of the data.
fn invalid_in_data(place: u16) -> Outcome
    ensures { result ≡ invalid_in_data place }
{
    Outcome {
        status: CONNECT_INVALID_PARAMETERS,
        dw0: 0x1_0000 + u32::from(place),
        dw1: 0,
    }
}
