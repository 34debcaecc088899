//! Sizes: the classes of a chunk, the class of a request, the tables of small and of page classes.

ghost use Rattle.std.specs.Prelude.{◌≡◌, [], ◌∷◌, length, map, Some, None, true, false};
ghost use Rattle.size_classes.specs.Sizes.{of_order, sizes, size_at, class_of, class_count, is_small, page_classes, page_class_up, page_classes_up_to, page_class_under};
ghost use Rattle.size_classes.specs.PageCounts.{page_counts};
ghost use Rattle.definition_rows.specs.SizePlays.{small_rows, pages_from};

/// The classes of the least chunk, of the usual one and of the greatest. The last is the chunk.
pub fn classes_of_a_chunk()
    ensures least { class_count (of_order 3) ≡ 44 }
    ensures usual { class_count (of_order 9) ≡ 68 }
    ensures greatest { class_count (of_order 11) ≡ 76 }
    ensures all { length (sizes (of_order 9)) ≡ 68 }
    ensures first { map size_at (0 ∷ 1 ∷ 2 ∷ 3 ∷ 4 ∷ 7 ∷ 8 ∷ 11 ∷ 12 ∷ [])
        ≡ 16 ∷ 32 ∷ 48 ∷ 64 ∷ 80 ∷ 128 ∷ 160 ∷ 256 ∷ 320 ∷ [] }
    ensures last { map size_at (43 ∷ 67 ∷ 75 ∷ []) ≡ 65536 ∷ 4194304 ∷ 16777216 ∷ [] }
{}

/// The class of a request is the least that holds it. Above the chunk there is none.
pub fn class_of_a_request()
    ensures nothing { class_of (of_order 9) 0 ≡ Some 0 }
    ensures exact { class_of (of_order 9) 16 ≡ Some 0 }
    ensures one_more { class_of (of_order 9) 17 ≡ Some 1 }
    ensures last_small { class_of (of_order 9) 28672 ≡ Some 38 }
    ensures first_normal { class_of (of_order 9) 28673 ≡ Some 39 }
    ensures exactly_normal { class_of (of_order 9) 32768 ≡ Some 39 }
    ensures whole_chunk { class_of (of_order 9) 4194304 ≡ Some 67 }
    ensures above { class_of (of_order 9) 4194305 ≡ None }
    ensures least_chunk { class_of (of_order 3) 65536 ≡ Some 43 }
    ensures above_the_least_chunk { class_of (of_order 3) 65537 ≡ None }
{}

/// The table of the small classes: sizes, pages and elements of a subpage.
pub fn small_classes()
    ensures rows { small_rows (of_order 9) ≡
        (16, 1, 512) ∷ (32, 1, 256) ∷ (48, 3, 512) ∷ (64, 1, 128) ∷ (80, 5, 512) ∷ (96, 3, 256)
        ∷ (112, 7, 512) ∷ (128, 1, 64) ∷ (160, 5, 256) ∷ (192, 3, 128) ∷ (224, 7, 256)
        ∷ (256, 1, 32) ∷ (320, 5, 128) ∷ (384, 3, 64) ∷ (448, 7, 128) ∷ (512, 1, 16) ∷ (640, 5, 64)
        ∷ (768, 3, 32) ∷ (896, 7, 64) ∷ (1024, 1, 8) ∷ (1280, 5, 32) ∷ (1536, 3, 16) ∷ (1792, 7, 32)
        ∷ (2048, 1, 4) ∷ (2560, 5, 16) ∷ (3072, 3, 8) ∷ (3584, 7, 16) ∷ (4096, 1, 2) ∷ (5120, 5, 8)
        ∷ (6144, 3, 4) ∷ (7168, 7, 8) ∷ (8192, 1, 1) ∷ (10240, 5, 4) ∷ (12288, 3, 2) ∷ (14336, 7, 4)
        ∷ (16384, 2, 1) ∷ (20480, 5, 2) ∷ (24576, 3, 1) ∷ (28672, 7, 2) ∷ [] }
    ensures first { is_small (of_order 9) 0 ≡ true }
    ensures last { is_small (of_order 9) 38 ≡ true }
    ensures first_normal { is_small (of_order 9) 39 ≡ false }
{}

/// The normal classes, in pages.
pub fn normal_classes()
    ensures usual { pages_from 39 (of_order 9) ≡
        4 ∷ 5 ∷ 6 ∷ 7 ∷ 8 ∷ 10 ∷ 12 ∷ 14 ∷ 16 ∷ 20 ∷ 24 ∷ 28 ∷ 32 ∷ 40 ∷ 48 ∷ 56 ∷ 64 ∷ 80 ∷ 96
        ∷ 112 ∷ 128 ∷ 160 ∷ 192 ∷ 224 ∷ 256 ∷ 320 ∷ 384 ∷ 448 ∷ 512 ∷ [] }
    ensures greatest { pages_from 67 (of_order 11) ≡
        512 ∷ 640 ∷ 768 ∷ 896 ∷ 1024 ∷ 1280 ∷ 1536 ∷ 1792 ∷ 2048 ∷ [] }
    ensures least { pages_from 39 (of_order 3) ≡ 4 ∷ 5 ∷ 6 ∷ 7 ∷ 8 ∷ [] }
{}

/// The page classes are the classes that are whole pages.
pub fn page_class_tables()
    ensures usual { page_classes (of_order 9) ≡
        1 ∷ 2 ∷ 3 ∷ 4 ∷ 5 ∷ 6 ∷ 7 ∷ 8 ∷ 10 ∷ 12 ∷ 14 ∷ 16 ∷ 20 ∷ 24 ∷ 28 ∷ 32 ∷ 40 ∷ 48 ∷ 56 ∷ 64
        ∷ 80 ∷ 96 ∷ 112 ∷ 128 ∷ 160 ∷ 192 ∷ 224 ∷ 256 ∷ 320 ∷ 384 ∷ 448 ∷ 512 ∷ [] }
    ensures least { page_classes (of_order 3) ≡ 1 ∷ 2 ∷ 3 ∷ 4 ∷ 5 ∷ 6 ∷ 7 ∷ 8 ∷ [] }
    ensures how_many { map (λ order. length (page_classes (of_order order))) (3 ∷ 9 ∷ 11 ∷ [])
        ≡ 8 ∷ 32 ∷ 40 ∷ [] }
    ensures by_number { map (λ order. length (page_counts order)) (3 ∷ 9 ∷ 11 ∷ [])
        ≡ 8 ∷ 32 ∷ 40 ∷ [] }
    ensures each_by_number { page_counts 3 ≡ 1 ∷ 2 ∷ 3 ∷ 4 ∷ 5 ∷ 6 ∷ 7 ∷ 8 ∷ [] }
{}

/// The page class of so many pages: the least at or above, and the greatest at or below.
pub fn page_class_of_a_run()
    ensures above { page_class_up (of_order 9) 9 ≡ Some 8 }
    ensures below { page_classes_up_to (of_order 9) 9 ≡ 8 }
    ensures under { page_class_under (of_order 9) 9 ≡ 8 }
    ensures exact { page_class_up (of_order 9) 10 ≡ Some 8 }
    ensures exactly_under { page_class_under (of_order 9) 10 ≡ 10 }
    ensures one { page_class_up (of_order 9) 1 ≡ Some 0 }
    ensures whole_chunk { page_class_up (of_order 9) 512 ≡ Some 31 }
    ensures one_page_less { page_class_under (of_order 9) 511 ≡ 448 }
{}
