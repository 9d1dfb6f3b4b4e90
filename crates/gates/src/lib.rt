// The standard gates: how many parameters and qubits each takes.
#![tactic(auto)]

ghost use Rattle.std.specs.Prelude.{◌≡◌, map};
ghost use Rattle.gates.specs.Gates.{lower, signature_of};

#[derive(Clone, Copy)]
pub struct StandardGate {
    pub params: u8,
    pub qubits: u8,
}

// By a name whose letters are lowered.
#[tactic(auto, using(crate::proofs::Names::names), unfolding(crate::specs::Gates::gates, crate::specs::Gates::lookup))]
fn standard_gate(name: &[u8]) -> Option<StandardGate>
    ensures { result ≡ signature_of name.now }
{
    let (params, qubits) = match name {
        b"u" => (3, 1),
        b"gphase" => (1, 0),
        b"id" | b"x" | b"y" | b"z" | b"h" | b"s" | b"sdg" | b"t" | b"tdg" | b"sx" => (0, 1),
        b"p" | b"rx" | b"ry" | b"rz" => (1, 1),
        b"cx" | b"cnot" | b"cy" | b"cz" | b"ch" | b"swap" => (0, 2),
        b"cp" | b"crx" | b"cry" | b"crz" => (1, 2),
        b"ccx" | b"cswap" => (0, 3),
        _ => return None,
    };
    Some(StandardGate { params, qubits })
}

// The letters A to Z lowered, other bytes as they are.
#[tactic(auto, using(crate::proofs::Names::lowered_is))]
fn lower_letter(b: u8) -> u8
    ensures { result ≡ lower b }
{
    b.to_ascii_lowercase()
}

// Byte by byte: a copy of so many bytes is a call, and what it stores is waited for where more bytes are read at once.
#[tactic(auto, using(crate::proofs::Names::long_lowered))]
pub fn standard_gate_signature(name: &[u8]) -> Option<StandardGate>
    ensures { result ≡ signature_of (map lower name.now) }
{
    let mut buffer = [0u8; 6];
    let lowered = buffer.get_mut(..name.len())?;
    for (i, b) in name.iter().enumerate() {
        lowered[i] = lower_letter(*b);
    }
    standard_gate(lowered)
}
