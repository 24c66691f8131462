//! Standard input and output, and the two ends of connections.
ghost use Rattle.std.specs.Prelude.{◌≡◌, ◌<◌, length};
ghost use Rattle.system_desk.specs.Told.{sink_told, source_told};

use keeper_core::{Failed, ReaderSource, Sink, SinkRefusal, Source, WriterSink};
use std::io::{Stdin, Stdout};
use std::net::TcpStream;

/// What a peer sends.
#[derive(Drop)]
pub struct PeerSource {
    source: ReaderSource<TcpStream>,
    // Whether the last read took all that had come.
    is_drained: bool,
}

/// Standard input, or what a peer sends.
#[derive(Drop)]
pub enum SystemSource {
    Input(ReaderSource<Stdin>),
    Peer(PeerSource),
}

impl SystemSource {
    /// What this peer sends, of which nothing is read yet.
    pub(crate) fn peer(stream: TcpStream) -> SystemSource
        ensures { (source_told result).faults ≡ 0 }
    {
        SystemSource::Peer(PeerSource {
            source: ReaderSource::make(stream),
            is_drained: false,
        })
    }

    /// Whether all that had come from a peer was read when it was last asked for.
    pub(crate) fn is_drained(&self) -> bool {
        match self {
            SystemSource::Input(_) => false,
            SystemSource::Peer(peer) => peer.is_drained,
        }
    }
}

/// Standard output, or what a peer is sent.
#[derive(Drop)]
pub enum SystemSink {
    Output(WriterSink<Stdout>),
    Peer(WriterSink<TcpStream>),
}

impl SystemSink {
    /// What this peer is sent, which is nothing yet.
    pub(crate) fn peer(stream: TcpStream) -> SystemSink
        ensures { (sink_told result).faults ≡ 0 }
    {
        SystemSink::Peer(WriterSink::make(stream))
    }
}

impl Source for SystemSource {
    ghost told = { source_told };

    fn read(&mut self, buf: &mut [u8]) -> Result<usize, Failed> {
        match self {
            SystemSource::Input(source) => source.read(buf),
            SystemSource::Peer(peer) => {
                let count = peer.source.read(buf)?;
                peer.is_drained = count < buf.len();
                Ok(count)
            }
        }
    }
}

impl Sink for SystemSink {
    ghost told = { sink_told };

    fn write(&mut self, piece: &[u8]) -> Result<usize, SinkRefusal> {
        match self {
            SystemSink::Output(sink) => sink.write(piece),
            SystemSink::Peer(sink) => sink.write(piece),
        }
    }

    fn flush(&mut self) -> Result<(), Failed> {
        match self {
            SystemSink::Output(sink) => sink.flush(),
            SystemSink::Peer(sink) => sink.flush(),
        }
    }
}
