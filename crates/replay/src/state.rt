// What replay keeps from one command to the next, and what each command does to it.
use answers::Answer;
use script::buffers::{Buffers, Samples};
use script::command::{Command, Operation, Unknown};
use script::say;
use std::io;
use std::io::{Read, Write};
use trace::Trace;

#[derive(Drop)]
struct State {
    trace: Trace,
    buffers: Buffers,
    lists: Samples,
}

impl State {
    // The state before the first command.
    fn new() -> State {
        State {
            trace: Trace {
                levels: 0,
                capacity: 0,
                held: 0,
                tolerances: [0; 16],
            },
            buffers: Buffers::default(),
            lists: Samples::default(),
        }
    }

    // setup m N n t1..t16: forge the trace.
    fn setup(&mut self, command: &Command) -> Result<(), Unknown> {
        let tolerances = command.tolerances_from(4)?;
        self.trace = Trace {
            levels: command.number(1)?,
            capacity: command.number(2)?,
            held: command.number(3)?,
            tolerances,
        };
        Ok(())
    }

    // start m N t1..t16
    fn start(&mut self, command: &Command) -> Result<Answer, Unknown> {
        let tolerances = command.tolerances_from(3)?;
        let started = Trace::start(command.number(1)?, command.number(2)?, tolerances);
        self.trace = started.trace;
        Ok(Answer::Started(started))
    }

    // ask i j k
    fn ask(&self, command: &Command) -> Result<Answer, Unknown> {
        let i = command.number(1)?;
        let j = command.number(2)?;
        let k = command.number(3)?;
        let samples = self.buffers.samples.lent();
        Ok(Answer::Asked(self.trace.ask(samples, k, i, j)))
    }

    // read
    fn read(&mut self, table: &[u16]) -> Answer {
        let cells = self.buffers.cells(table);
        let samples = self.buffers.samples.lent();
        let ranks = self.buffers.ranks.as_mut_slice();
        Answer::Levels(self.trace.read(samples, cells, ranks))
    }

    // put v x y mark
    fn put(&mut self, command: &Command, table: &mut [u16]) -> Result<Answer, Unknown> {
        let v = command.number(1)?;
        let sample = command.sample_from(2)?;
        let cells = self.buffers.cells_mut(table);
        let samples = &mut self.buffers.samples;
        let changed = self.trace.put(
            samples.across.as_mut_slice(),
            samples.up.as_mut_slice(),
            samples.marks.as_mut_slice(),
            cells,
            v,
            sample,
        );
        self.trace = changed.trace;
        Ok(Answer::Changed(changed))
    }

    // upload
    fn upload(&mut self, table: &mut [u16]) -> Answer {
        let cells = self.buffers.cells_mut(table);
        let samples = &mut self.buffers.samples;
        let uploaded = self.trace.upload(
            samples.across.as_mut_slice(),
            samples.up.as_mut_slice(),
            samples.marks.as_mut_slice(),
            cells,
            self.lists.lent(),
        );
        self.trace = uploaded.trace;
        Answer::Uploaded(uploaded)
    }

    // Carry a command out; what its call answered, where it makes one. A command that is none changes nothing.
    fn obey(&mut self, command: &Command, table: &mut [u16]) -> Result<Option<Answer>, Unknown> {
        match command.operation()? {
            Operation::Bufs => self.buffers.bufs(command, table)?,
            Operation::Setup => self.setup(command)?,
            Operation::Poke => self.buffers.poke(command, table)?,
            Operation::Start => return self.start(command).map(Some),
            Operation::Ask => return self.ask(command).map(Some),
            Operation::Read => return Ok(Some(self.read(table))),
            Operation::Decode => {
                return Ok(Some(Answer::Decoded(record::decode(command.record()))));
            }
            Operation::Put => return self.put(command, table).map(Some),
            Operation::List => self.lists.list(command)?,
            Operation::Empty => self.lists = Samples::default(),
            Operation::Upload => return Ok(Some(self.upload(table))),
        }
        Ok(None)
    }

    // Carry a command out, and write its line.
    fn turn<W: Write>(
        &mut self,
        command: &Command,
        out: &mut W,
        steps: &[u32; 256],
        table: &mut [u16],
    ) -> io::Result<()> {
        match self.obey(command, table) {
            Err(Unknown) => say::unknown(out),
            Ok(None) => Ok(()),
            Ok(Some(answer)) => {
                write!(out, "{answer}")?;
                if answer.has_digest() {
                    let digest = self.buffers.digest(steps, table);
                    write!(out, " {digest}")?;
                }
                say::end(out)
            }
        }
    }
}

// Carry out the commands of the input. A proved loop has to end, so it counts up to a number that no script reaches.
pub(crate) fn run<R: Read, W: Write>(
    input: &mut R,
    out: &mut W,
    steps: &[u32; 256],
    table: &mut [u16],
) -> io::Result<()> {
    let mut state = State::new();
    for _ in 0..u64::MAX {
        let Some(command) = Command::read(input, out)? else {
            break;
        };
        state.turn(&command, out, steps, table)?;
    }
    Ok(())
}
