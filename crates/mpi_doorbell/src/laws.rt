//! What holds over whole runs of the doorbell, by its rules alone. The functions do nothing: their
//! clauses are the laws.
ghost use Rattle.std.specs.Prelude.{◌≡◌, ◌<◌, ◌*◌, ◌%◌, ◌∷◌, ◌++◌, [], All, length, List, slice_index, false, ℕ, Option};
ghost use Rattle.mpi_doorbell.specs.Bytes.{IsMessage, IsReply};
ghost use Rattle.mpi_doorbell.specs.DoorCalls.{after_calls, AsksDwords, DoorCall, doorbell_taken, keys_written};
ghost use Rattle.mpi_doorbell.specs.DoorRegisters.{DoorRegisters, is_fault, new_registers, register_written};
ghost use Rattle.mpi_doorbell.specs.Handshake.{Idle};
ghost use Rattle.mpi_doorbell.specs.HostRun.{after_steps, doorbell_reads, doorbell_writes, HandsOver};
ghost use Rattle.mpi_doorbell.specs.HostSteps.{Expects, handshake_of_message, next_step};
ghost use Rattle.mpi_doorbell.specs.Keys.{IsUnlocking};
ghost use Rattle.mpi_doorbell.specs.Meeting.{AsksAndEnds, LeadsTo, talk};

use crate::effect::Effect;
use crate::registers::{DOORBELL, HOST_DIAGNOSTIC};
use crate::step::DoorStep;

/// An adapter reset begins only where the last six keys that were written to WriteSequence are those
/// that unlock HostDiagnostic, in order, and the first of them was written at place 0.
pub fn reset_needs_the_keys()
    ensures { (calls : List DoorCall) (reg value : ℕ) →
        (register_written (after_calls new_registers calls) reg value).effect ≡ Effect.AdapterReset →
        (reg ≡ HOST_DIAGNOSTIC) × IsUnlocking (keys_written calls) }
{}

/// A message that the adapter asks is the dwords that were written to the Doorbell since its handshake
/// was opened, as many as it was opened for.
pub fn messages_are_their_dwords()
    ensures { (calls : List DoorCall) (reg value count : ℕ) (bytes : List ℕ) →
        (register_written (after_calls new_registers calls) reg value).effect
        ≡ Effect.Asked count bytes →
        (reg ≡ DOORBELL) × AsksDwords (doorbell_taken new_registers calls ++ value ∷ []) count bytes }
{}

/// A host's handshake that is done wrote its message to the Doorbell, dword by dword after the opening,
/// and it is done with the words that it read there.
pub fn handshakes_hand_over()
    ensures { (message : List ℕ) (values : List (Option ℕ)) (value : Option ℕ)
        (count : ℕ) (bytes : List ℕ) →
        All (λ b. b < 256) message → length message % 4 ≡ 0 →
        Expects (after_steps (handshake_of_message message) values).stage value →
        (next_step (after_steps (handshake_of_message message) values) value).step
        ≡ DoorStep.Done count bytes →
        HandsOver message (doorbell_writes (handshake_of_message message) values)
        (doorbell_reads (handshake_of_message message) values) count bytes }
{}

/// The two ends meet. Where the adapter isn't in FAULT and has no handshake under way, a host's handshake
/// asks exactly its message of it, and nothing else before; and after the adapter answered by a reply
/// whose MsgLength, byte 02, counts its dwords, the host is done with exactly that reply.
pub fn ends_meet()
    ensures { (message reply : List ℕ) (r : DoorRegisters) →
        IsMessage message → All (λ b. b < 256) message →
        IsReply reply → All (λ b. b < 256) reply → 4 * slice_index reply 2 ≡ length reply →
        r.handshake ≡ Idle → is_fault r.state ≡ false → r.who_init < 8 →
        LeadsTo (AsksAndEnds message reply) (talk message r) }
{}
