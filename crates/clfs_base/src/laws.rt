// What the bytes of a base copy say of its image.
ghost use Rattle.std.specs.Prelude.{◌≡◌, ◌+◌, ◌-◌, ◌^◌, ◌<◌, ◌≤◌, ◌↔◌, ℕ, List, ◌∷◌, ◌++◌, Ok, length, take, drop, slice_index};
ghost use Rattle.clfs_lsn.specs.Size.{IsShape};
ghost use Rattle.clfs_base.specs.declared.image.BaseImage.{BaseImage};
ghost use Rattle.clfs_base.specs.Layout.{slot_bytes};
ghost use Rattle.clfs_base.specs.Spelling.{IsImage, FitsOne, row_in, current, spelled};
ghost use Rattle.clfs_base.specs.Checks.{image_at};

/// A copy is read as it was written, whatever its gate and whatever follows it. What is read of bytes is an image that a log can
/// have and that they spell; of numbers that are no bytes, its shape and its ids are in their ranges, and all of it is where its bases
/// fit eight bytes. An image has one spelling in its version, of 16,383 bytes, and no other image has it. In the second version each
/// image has one, and in the first one just those that have no more than this version has room for.
pub fn copies_are_read_as_written()
    ensures written { (image : BaseImage) (gate : ℕ) (rest : List ℕ) → IsImage image
        → image_at (gate ∷ (spelled image ++ rest)) ≡ Ok image }
    ensures read { (bytes : List ℕ) (image : BaseImage) → ((i : ℕ) → slice_index bytes i < 256) → image_at bytes ≡ Ok image
        → IsImage image × (take (slot_bytes - 1) (drop 1 bytes) ≡ spelled image) }
    ensures exactly { (bytes : List ℕ) (image : BaseImage) → ((i : ℕ) → slice_index bytes i < 256) → IsImage image
        → (image_at bytes ≡ Ok image ↔ take (slot_bytes - 1) (drop 1 bytes) ≡ spelled image) }
    ensures limits { (bytes : List ℕ) (image : BaseImage) → image_at bytes ≡ Ok image
        → IsShape (record { block_sectors = image.block_sectors; container_sectors = image.container_sectors })
        × (image.first + length image.files ≤ 2 ^ 32) }
    ensures may_be { (bytes : List ℕ) (image : BaseImage) → ((i : ℕ) → i < length image.streams → (row_in image.streams i).base < 2 ^ 64)
        → image_at bytes ≡ Ok image → IsImage image }
    ensures length { (image : BaseImage) → IsImage image → length (spelled image) ≡ slot_bytes - 1 }
    ensures one { (a b : BaseImage) → IsImage a → IsImage b → spelled a ≡ spelled b → a ≡ b }
    ensures current { (image : BaseImage) → IsImage image → IsImage (current image) }
    ensures in_one { (image : BaseImage) → IsImage image → (IsImage (record image { version = 1 }) ↔ FitsOne image) }
{}
