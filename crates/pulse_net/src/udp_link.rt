// A UDP socket of this machine as a link: the trusted edge.

ghost use Rattle.std.specs.Prelude.{◌≤◌, length, IfOk};

use pulse_base::{Failed, Got, Link};
use std::io;
use std::io::ErrorKind;
use std::net::{Net, SocketAddr, UdpSocket};
use std::time::Duration;

/// One UDP socket bound to 127.0.0.1. It does not tell its traffic. A receive with `wait` waits 20 milliseconds at most
/// and one without it not at all; a frame that does not come in that time is a gap.
#[derive(Drop)]
pub struct UdpLink<'a, R: Net> {
    net: &'a R,
    socket: Option<UdpSocket>,
    faults: u64,
}

fn local(port: u16) -> SocketAddr {
    SocketAddr::from(([127, 0, 0, 1], port))
}

fn open<R: Net>(net: &R, port: u16) -> io::Result<UdpSocket> {
    let socket = UdpSocket::bind(net, local(port))?;
    socket.set_read_timeout(Some(Duration::from_millis(20)))?;
    Ok(socket)
}

fn take(socket: &UdpSocket, buf: &mut [u8], wait: bool) -> io::Result<(usize, SocketAddr)>
    ensures { IfOk result (λ r. r.0 ≤ length buf.new) }
{
    socket.set_nonblocking(!wait)?;
    socket.recv_from(buf)
}

impl<'a, R: Net> UdpLink<'a, R> {
    /// A link that is not bound yet. Each call but `bind` fails until it is.
    pub fn new(net: &'a R) -> UdpLink<'a, R> {
        UdpLink {
            net,
            socket: None,
            faults: 0,
        }
    }
}

impl<'a, R: Net> Link for UdpLink<'a, R> {
    ghost use Rattle.std.specs.Prelude.{None};

    ghost traffic = { λ l. None };

    ghost faults = { λ l. l.faults };

    fn bind(&mut self, port: u16) -> Result<(), Failed> {
        match open(self.net, port) {
            Ok(socket) => {
                self.socket = Some(socket);
                Ok(())
            }
            Err(_) => {
                self.faults = self.faults.saturating_add(1);
                Err(Failed)
            }
        }
    }

    fn send(&mut self, port: u16, frame: &[u8]) -> Result<(), Failed> {
        if let Some(socket) = &self.socket {
            if let Ok(_) = socket.send_to(frame, local(port)) {
                return Ok(());
            }
        }
        self.faults = self.faults.saturating_add(1);
        Err(Failed)
    }

    fn receive(&mut self, buf: &mut [u8], wait: bool) -> Result<Got, Failed> {
        if let Some(socket) = &self.socket {
            match take(socket, buf, wait) {
                Ok((len, from)) => {
                    let port = from.port();
                    return Ok(Got::Frame { port, len });
                }
                Err(error) => match error.kind() {
                    ErrorKind::WouldBlock | ErrorKind::TimedOut => return Ok(Got::Nothing),
                    _ => {}
                },
            }
        }
        self.faults = self.faults.saturating_add(1);
        Err(Failed)
    }
}
