//! A probe that is not of the program, handed in at the top call.

ghost use Rattle.std.specs.Prelude.{[], All, IfOk};

use paralog_top::{Status, plain_top};
use pl_base::{MemSink, MemSource, NoMemory};
use pl_event::Event;
use replay_probes::{Probe, See};
use std::alloc::Global;
use std::test::Fail;

/// A probe whose line is its name.
#[derive(Drop)]
struct Named {
    name: String,
}

impl Probe for Named {
    ghost use Rattle.std.specs.Prelude.{false, string_bytes};

    ghost meaning = { λ p. record { name = string_bytes p.name; line = λ seen. string_bytes p.name; stops = λ seen. false } };

    ghost has_seen = { λ p seen. Unit {0} };

    fn name(&self) -> &str {
        self.name.as_str()
    }

    fn see(
        &mut self,
        _alloc: Global,
        _place: u32,
        _number: u32,
        _event: &Event,
    ) -> Result<See, NoMemory> {
        Ok(See::Go)
    }

    fn finish(&self, alloc: Global) -> Result<Vec<u8>, NoMemory> {
        Ok(self.name.as_bytes().to_vec(alloc)?)
    }
}

/// A probe of that name that has seen no event.
fn with_name(alloc: Global, name: &str) -> Result<Box<dyn Probe>, NoMemory>
    ensures { IfOk result (λ p. has_seen p []) }
{
    let name = String::from_str(alloc, name)?;
    Ok(Box::new(alloc, Named { name })?)
}

/// One more probe that has seen no event.
fn hand_in(probes: &mut Vec<Box<dyn Probe>>, probe: Box<dyn Probe>) -> Result<(), NoMemory>
    requires all { All (λ p. has_seen p []) probes.old.items }
    requires fresh { has_seen probe [] }
    ensures { All (λ p. has_seen p []) probes.new.items }
{
    probes.push(probe)?;
    Ok(())
}

/// Nine probes, named by letters.
fn nine_probes(alloc: Global) -> Result<Vec<Box<dyn Probe>>, NoMemory>
    ensures { IfOk result (λ probes. All (λ p. has_seen p []) probes.items) }
{
    let mut probes = Vec::new(alloc);
    hand_in(&mut probes, with_name(alloc, "a")?)?;
    hand_in(&mut probes, with_name(alloc, "b")?)?;
    hand_in(&mut probes, with_name(alloc, "c")?)?;
    hand_in(&mut probes, with_name(alloc, "d")?)?;
    hand_in(&mut probes, with_name(alloc, "e")?)?;
    hand_in(&mut probes, with_name(alloc, "f")?)?;
    hand_in(&mut probes, with_name(alloc, "g")?)?;
    hand_in(&mut probes, with_name(alloc, "h")?)?;
    hand_in(&mut probes, with_name(alloc, "i")?)?;
    Ok(probes)
}

/// Whether the command with the nine probes at hand ends so on a log without records, and writes this.
fn writes(alloc: Global, command: &str, status: Status, text: &str) -> Result<bool, NoMemory> {
    let mut words = Vec::new(alloc);
    for word in command.split_whitespace() {
        words.push(String::from_str(alloc, word)?)?;
    }
    let input = b"PLOG 1 harts 2 block 16\n".to_vec(alloc)?;
    let mut source = MemSource::new(input, 100, Vec::new(alloc));
    let mut out = MemSink::new(alloc, 100, 100, Vec::new(alloc))?;
    let mut notes = MemSink::new(alloc, 100, 100, Vec::new(alloc))?;
    let probes = nine_probes(alloc)?;
    let ended = plain_top(alloc, &words, &mut source, &mut out, &mut notes, probes);
    Ok(ended == status && out.written() == text.as_bytes())
}

#[test]
fn eight_names_are_taken_and_nine_refused(rt: HostRuntime) -> Result<(), Fail> {
    let alloc = rt.alloc();
    let text = "PREP 1 addrcheck harts 2\nreports 0\nend\ni\nb\nc\nd\ne\nf\ng\nh\n";
    let eight = "probe addrcheck i b c d e f g h";
    assert!(rt; writes(alloc, eight, Status::Clean, text)?);
    let nine = "probe addrcheck i b c d e f g h a";
    assert!(rt; writes(alloc, nine, Status::Usage, "")?);
    Ok(())
}
