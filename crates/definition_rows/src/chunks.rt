//! Chunks: their bytes and their usage, and what a list of runs must be to be one.

ghost use Rattle.std.specs.Prelude.{◌≡◌, [], ◌∷◌, Some, None};
ghost use Rattle.size_classes.specs.Sizes.{of_order};
ghost use Rattle.size_classes.specs.Pages.{Free, Used};
ghost use Rattle.pool_law.specs.Chunks.{Whole, Sub, new_chunk, usage_of, usage, used_bytes, free_bytes, IsChunk};
ghost use Rattle.definition_rows.specs.ChunkPlays.{merged_runs, with_four_elements, elements_out};

/// How full a chunk of 512 pages is: 100 only where nothing is free, and 99 where less than two
/// hundredths are.
pub fn usage_by_free_pages()
    ensures none { usage_of 0 4194304 ≡ 100 }
    ensures one { usage_of 8192 4194304 ≡ 99 }
    ensures under_a_hundredth { usage_of 40960 4194304 ≡ 99 }
    ensures a_hundredth { usage_of 49152 4194304 ≡ 99 }
    ensures two_hundredths { usage_of 90112 4194304 ≡ 98 }
    ensures a_quarter { usage_of 1048576 4194304 ≡ 75 }
    ensures all_but_one { usage_of 4186112 4194304 ≡ 1 }
    ensures all { usage_of 4194304 4194304 ≡ 0 }
{}

/// The bytes of a chunk of 16 pages, new and with fifteen pages in use.
pub fn bytes_of_a_chunk()
    ensures new { free_bytes (of_order 4) (new_chunk (of_order 4)) ≡ 131072 }
    ensures unused { used_bytes (of_order 4) (new_chunk (of_order 4)) ≡ 0 }
    ensures used { used_bytes (of_order 4) merged_runs ≡ 122880 }
    ensures free { free_bytes (of_order 4) merged_runs ≡ 8192 }
    ensures usage { usage (of_order 4) merged_runs ≡ 94 }
    // an idle subpage is in use
    ensures idle { used_bytes (of_order 4) (with_four_elements None) ≡ 8192 }
{}

/// The runs of a chunk cover it, and no two free ones are side by side.
pub fn runs_that_cover()
    ensures new { IsChunk (of_order 4) (new_chunk (of_order 4)) }
    ensures used { IsChunk (of_order 4) merged_runs }
    ensures gap { ¬ IsChunk (of_order 4) (Used 10 Whole ∷ Free 5 ∷ []) }
    ensures side_by_side { ¬ IsChunk (of_order 4) (Free 10 ∷ Free 6 ∷ []) }
    ensures empty { ¬ IsChunk (of_order 4) (Free 0 ∷ Used 16 Whole ∷ []) }
{}

/// A subpage has the pages and the elements of its class, and remembers an element that is not out.
pub fn subpages_that_fit()
    ensures idle { IsChunk (of_order 4) (with_four_elements None) }
    ensures all_out { IsChunk (of_order 4) (Used 1 (Sub 23 (elements_out 4 None)) ∷ Free 15 ∷ []) }
    ensures remembers { IsChunk (of_order 4) (with_four_elements (Some 3)) }
    ensures not_past_the_last { ¬ IsChunk (of_order 4) (with_four_elements (Some 4)) }
    ensures pages { ¬ IsChunk (of_order 4)
        (Used 2 (Sub 23 (elements_out 4 None)) ∷ Free 14 ∷ []) }
    ensures elements { ¬ IsChunk (of_order 4)
        (Used 1 (Sub 23 (elements_out 2 None)) ∷ Free 15 ∷ []) }
    ensures out { ¬ IsChunk (of_order 4)
        (Used 1 (Sub 23 (elements_out 4 (Some 1))) ∷ Free 15 ∷ []) }
{}
