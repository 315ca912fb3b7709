//! Laws of payloads: each is the contract of a function that does nothing.

ghost use Rattle.std.specs.Prelude.{◌≡◌, ℕ, ℤ, ◌<◌, ◌++◌, List, Bool, length, map, true, slice_index};
ghost use Rattle.cl_tree.specs.declared.kinds.IntKind.{IntKind as Kind};
ghost use Rattle.cl_mean.specs.Journal.{payload_bytes, payload_numbers, frame_bytes};
ghost use Rattle.cl_mean.specs.LocalRun.{is_fitting};
ghost use Rattle.cl_mean.specs.Shape.{Shape, kinds_of, total_size, under};
ghost use Rattle.cl_tree.specs.Words.{Word};
ghost use Rattle.rpc_codec.specs.Frames.{header_bytes};
ghost use Rattle.rpc_codec.specs.Leaves.{chosen_from, leaves};

/// Numbers of their kinds are read back from their payload, whatever follows it.
pub fn numbers_return()
    ensures { (kinds : List Kind) (ns : List ℤ) (rest : List ℕ) → is_fitting kinds ns ≡ true → payload_numbers kinds (payload_bytes kinds ns ++ rest) ≡ ns }
{}

/// Bytes of the length of a payload are the payload of the numbers that they are read as, and these are of their kinds.
pub fn bytes_return()
    ensures bytes { (kinds : List Kind) (bytes : List ℕ) → ((k : ℕ) → slice_index bytes k < 256) → length bytes ≡ total_size kinds → payload_bytes kinds (payload_numbers kinds bytes) ≡ bytes }
    ensures fits { (kinds : List Kind) (bytes : List ℕ) → is_fitting kinds (payload_numbers kinds bytes) ≡ true }
{}

/// A payload has the bytes of its kinds.
pub fn payload_is_long()
    ensures { (kinds : List Kind) (ns : List ℤ) → length ns ≡ length kinds → length (payload_bytes kinds ns) ≡ total_size kinds }
{}

/// The bytes of a frame are those of its header and then its payload.
pub fn frame_is_header_and_payload()
    ensures { (mux typ turn code : ℕ) (payload : List ℕ) → frame_bytes mux typ turn code payload ≡ header_bytes (record { mux = mux; sec = mux; typ = typ; turn = turn; kind = code; length = length payload }) ++ payload }
{}

/// The integers of a payload have its kinds, whatever path is asked for, and those under the path stand at its places.
pub fn leaves_are_the_integers()
    ensures kinds { (s : Shape) (on : Bool) (path : List Word) → map (λ l. l.kind) (leaves s on path) ≡ kinds_of s }
    ensures places { (s : Shape) (path : List Word) (at : ℕ) → chosen_from at (leaves s true path) ≡ under s path at }
{}
