//! Laws of images, for callers to cite.
ghost use Rattle.std.specs.Prelude.{◌≡◌, ℕ, List, Ok, slice_index};
ghost use Rattle.rank_language.specs.Program.{ProgramValue};
ghost use Rattle.checkpoint.specs.declared.format.Format.{Format};
ghost use Rattle.checkpoint.specs.declared.format.Format.TheVariants.{One, Two};
ghost use Rattle.checkpoint.specs.Image.{ImageValue, at_rest};
ghost use Rattle.checkpoint.specs.Legal.{IsImage, IsTextOf};
ghost use Rattle.checkpoint.specs.Spelling.{FitsBytes, text_in};
ghost use Rattle.checkpoint.specs.Reading.{reading};

/// A law, for proofs alone: bytes that are read are their image in one of the
/// formats, of this program, rank and number of ranks; in either format each such
/// image is read from its bytes; no bytes are of both formats; and cursors aren't
/// in the bytes.
pub fn law_images()
    ensures read { (p : ProgramValue) (rank size : ℕ) → FitsBytes 1 rank → FitsBytes 1 size
        → (bytes : List ℕ) (i : ImageValue)
        → ((k : ℕ) → FitsBytes 1 (slice_index bytes k)) → reading p rank size bytes ≡ Ok i
        → IsTextOf p rank size bytes i }
    ensures again { (format : Format) (p : ProgramValue) (rank size : ℕ) (i : ImageValue)
        → IsImage format p rank size i → reading p rank size (text_in format i) ≡ Ok i }
    ensures apart { (i j : ImageValue) → text_in One i ≡ text_in Two j → ⊥ }
    ensures cursors { (format : Format) (i : ImageValue) → text_in format (at_rest i) ≡ text_in format i }
{}
