//! How a run ends.

ghost use Rattle.std.specs.Prelude.{◌≡◌};
ghost use Rattle.marker_cli.specs.Lines.{code_of};
ghost use Rattle.marker_cli.specs.declared.status.Status.TheVariants as status;

use edit_script::fault::ScriptFault;
use plain_types::memory::Memory;
use ports::failed::Failed;
use ports::put_fault::PutFault;
use xhtml_reader::fault::DocFault;

/// A file that a run reads.
#[derive(Clone, Copy, Debug, PartialEq, Eq)]
pub enum FileAt {
    /// The file that this word names. The first word is word 0, the command.
    Word(usize),
    /// The file that this line of the script names. The first line is line 1.
    Line(usize),
}

/// How a run ended.
#[derive(Clone, Copy, Debug, PartialEq, Eq)]
pub enum Status {
    /// All output was written; of a script each command was done, or its edit refused, or there was nothing to undo or redo.
    Ok,
    /// Memory was wanting.
    Memory,
    /// The words are of no form.
    Usage,
    /// A read of this file failed.
    ReadFault {
        file: FileAt,
    },
    /// This file is longer than a file may be.
    TooLarge {
        file: FileAt,
    },
    /// This file isn't UTF-8; its first bytes are, up to the offset.
    NotUtf8 {
        file: FileAt,
        offset: usize,
    },
    /// DOC is no document; the first item that doesn't fit is here, both from 1.
    BadDocument {
        line: usize,
        column: usize,
    },
    /// SCRIPT is no script; this is the first line, from 1, that is neither skipped nor a command.
    BadScript {
        number: usize,
    },
    /// A write of the output failed.
    WriteFault,
    /// This document of a book is none; the first item that doesn't fit is here, both from 1.
    BadPart {
        file: FileAt,
        line: usize,
        column: usize,
    },
    /// All output was written, but so many texts found no place in it: their elements take no `span`.
    LeftOut {
        count: usize,
    },
}

impl Status {
    /// The number with which the program exits. It takes no memory and constant time.
    pub fn code(&self) -> u8
        ensures code { result ≡ code_of self.now }
    {
        match self {
            Status::Ok => 0,
            Status::Memory => 1,
            Status::Usage => 2,
            Status::ReadFault { .. } => 3,
            Status::TooLarge { .. } => 4,
            Status::NotUtf8 { .. } => 5,
            Status::BadDocument { .. } => 6,
            Status::BadScript { .. } => 7,
            Status::WriteFault => 8,
            Status::BadPart { .. } => 10,
            Status::LeftOut { .. } => 11,
        }
    }
}

impl From<Memory> for Status {
    ghost from_gives = { λ _ e. e ≡ status.Memory };

    fn from(_error: Memory) -> Status {
        Status::Memory
    }
}

impl From<Failed> for Status {
    ghost from_gives = { λ _ e. e ≡ status.WriteFault };

    fn from(_error: Failed) -> Status {
        Status::WriteFault
    }
}

impl From<DocFault> for Status {
    ghost use Rattle.marker_cli.specs.Machinery.Statuses.{document_status};

    ghost from_gives = { λ fault e. e ≡ document_status fault };

    fn from(fault: DocFault) -> Status {
        match fault {
            DocFault::Malformed { line, column } => Status::BadDocument { line, column },
            DocFault::Memory => Status::Memory,
        }
    }
}

impl From<ScriptFault> for Status {
    ghost use Rattle.marker_cli.specs.Machinery.Statuses.{script_status};

    ghost from_gives = { λ fault e. e ≡ script_status fault };

    fn from(fault: ScriptFault) -> Status {
        match fault {
            ScriptFault::BadLine { number } => Status::BadScript { number },
            ScriptFault::Memory => Status::Memory,
        }
    }
}

impl From<PutFault> for Status {
    ghost use Rattle.marker_cli.specs.Machinery.Statuses.{put_status};

    ghost from_gives = { λ fault e. e ≡ put_status fault };

    fn from(fault: PutFault) -> Status {
        match fault {
            PutFault::WriteFault => Status::WriteFault,
            PutFault::Memory => Status::Memory,
        }
    }
}
