// What other languages link (include/lubdranit.h): the calls of both ends over lent bytes, and the run program in memory. A slice goes over as
// a pointer and a length. Each function hands on to the crate that has the call, and turns what it answers into one number.
#![tactic(auto)]

ghost use Rattle.std.specs.Prelude.{◌≡◌};
ghost use Rattle.c_layout.specs.Called.{returned};
ghost use Rattle.c_client.specs.Layout.{size as client_size};
ghost use Rattle.c_client.specs.Calls as client;
ghost use Rattle.c_server.specs.Layout.{size as server_size};
ghost use Rattle.c_server.specs.Calls as server;
ghost use Rattle.c_packet.specs.Calls as packets;
ghost use Rattle.sheet_print.specs.Sink.{Printed};
ghost use Rattle.sheet_run.specs.Output.{output};

// ---- a client

#[unsafe(no_mangle)]
pub extern "C" fn lub_client_open(
    end: &mut [u8],
    n: u8,
    line: u8,
    ranks: &[u8],
    items: &[u8],
) -> u64
    ensures { returned result end.new ≡ client.opened_in end.old n line ranks.now items.now }
{
    c_layout::done(c_client::open(end, n, line, ranks, items))
}

#[unsafe(no_mangle)]
pub extern "C" fn lub_client_insert(end: &mut [u8], position: u16, item: u32) -> u64
    ensures { returned result end.new ≡ client.inserted_in end.old position item }
{
    c_layout::done(c_client::insert(end, position, item))
}

#[unsafe(no_mangle)]
pub extern "C" fn lub_client_delete(end: &mut [u8], position: u16) -> u64
    ensures { returned result end.new ≡ client.deleted_in end.old position }
{
    c_layout::done(c_client::delete(end, position))
}

#[unsafe(no_mangle)]
pub extern "C" fn lub_client_take_back(end: &mut [u8]) -> u64
    ensures { returned result end.new ≡ client.taken_back_in end.old }
{
    c_layout::done(c_client::take_back(end))
}

#[unsafe(no_mangle)]
pub extern "C" fn lub_client_send(end: &[u8], line: u8, number: u16, out: &mut [u8]) -> u64
    ensures { returned result out.new ≡ client.sent_in end.now line number out.old }
{
    c_layout::written(c_client::send(end, line, number, out))
}

#[unsafe(no_mangle)]
pub extern "C" fn lub_client_acknowledge(end: &[u8], line: u8, out: &mut [u8]) -> u64
    ensures { returned result out.new ≡ client.acknowledged_in end.now line out.old }
{
    c_layout::written(c_client::acknowledge(end, line, out))
}

#[unsafe(no_mangle)]
pub extern "C" fn lub_client_take(end: &mut [u8], message: &[u8]) -> u64
    ensures { returned result end.new ≡ client.taken_in end.old message.now }
{
    c_layout::reported(c_client::take(end, message))
}

#[unsafe(no_mangle)]
pub extern "C" fn lub_client_pack(end: &[u8], line: u8, out: &mut [u8], offset: usize) -> u64
    ensures { returned result out.new ≡ packets.client_packed_in end.now line out.old offset }
{
    c_layout::written(c_packet::client_end::pack(end, line, out, offset))
}

#[unsafe(no_mangle)]
pub extern "C" fn lub_client_take_packet(end: &mut [u8], packet: &[u8]) -> u64
    ensures { returned result end.new ≡ packets.client_packet_in end.old packet.now }
{
    c_layout::counted(c_packet::client_end::take_packet(end, packet))
}

#[unsafe(no_mangle)]
pub extern "C" fn lub_client_take_at(end: &mut [u8], packet: &[u8], offset: usize) -> u64
    ensures { returned result end.new ≡ packets.client_taken_at_in end.old packet.now offset }
{
    c_packet::reported(c_packet::client_end::take_at(end, packet, offset))
}

// ---- the server

#[unsafe(no_mangle)]
pub extern "C" fn lub_server_open(end: &mut [u8], n: u8, ranks: &[u8], items: &[u8]) -> u64
    ensures { returned result end.new ≡ server.opened_in end.old n ranks.now items.now }
{
    c_layout::done(c_server::open(end, n, ranks, items))
}

#[unsafe(no_mangle)]
pub extern "C" fn lub_server_send(end: &[u8], line: u8, number: u16, out: &mut [u8]) -> u64
    ensures { returned result out.new ≡ server.sent_in end.now line number out.old }
{
    c_layout::written(c_server::send(end, line, number, out))
}

#[unsafe(no_mangle)]
pub extern "C" fn lub_server_acknowledge(end: &[u8], line: u8, out: &mut [u8]) -> u64
    ensures { returned result out.new ≡ server.acknowledged_in end.now line out.old }
{
    c_layout::written(c_server::acknowledge(end, line, out))
}

#[unsafe(no_mangle)]
pub extern "C" fn lub_server_take(end: &mut [u8], message: &[u8]) -> u64
    ensures { returned result end.new ≡ server.taken_in end.old message.now }
{
    c_layout::reported(c_server::take(end, message))
}

#[unsafe(no_mangle)]
pub extern "C" fn lub_server_pack(end: &[u8], line: u8, out: &mut [u8], offset: usize) -> u64
    ensures { returned result out.new ≡ packets.server_packed_in end.now line out.old offset }
{
    c_layout::written(c_packet::server_end::pack(end, line, out, offset))
}

#[unsafe(no_mangle)]
pub extern "C" fn lub_server_take_packet(end: &mut [u8], packet: &[u8]) -> u64
    ensures { returned result end.new ≡ packets.server_packet_in end.old packet.now }
{
    c_layout::counted(c_packet::server_end::take_packet(end, packet))
}

#[unsafe(no_mangle)]
pub extern "C" fn lub_server_take_at(end: &mut [u8], packet: &[u8], offset: usize) -> u64
    ensures { returned result end.new ≡ packets.server_taken_at_in end.old packet.now offset }
{
    c_packet::reported(c_packet::server_end::take_at(end, packet, offset))
}

// ---- the lengths of the layouts, and the run program

#[unsafe(no_mangle)]
pub extern "C" fn lub_client_bytes() -> u64
    ensures { result ≡ client_size }
{
    c_client::SIZE as u64
}

#[unsafe(no_mangle)]
pub extern "C" fn lub_server_bytes() -> u64
    ensures { result ≡ server_size }
{
    c_server::SIZE as u64
}

// The run program with its input and output in memory.
#[unsafe(no_mangle)]
pub extern "C" fn lub_run(input: &[u8], out: &mut [u8]) -> u64
    ensures { Printed (output input.now) out.old out.new result }
{
    sheet_run::run(input, out) as u64
}
