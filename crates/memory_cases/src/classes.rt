//! The tables of sizes, row by row, through the public calls.

ghost use Rattle.std.specs.Prelude.{◌≡◌, ◌≤◌};
ghost use Rattle.size_classes.specs.Sizes.{of_pages, IsGeometry};

use size_classes::{DEFAULT_PAGE, SizeClasses};
use std::alloc::Global;
use std::process::Abort;

// The small classes: the size, the pages of a subpage, and how many elements it has.
const SMALL: [(u32, u32, u32); 39] = [
    (16, 1, 512),
    (32, 1, 256),
    (48, 3, 512),
    (64, 1, 128),
    (80, 5, 512),
    (96, 3, 256),
    (112, 7, 512),
    (128, 1, 64),
    (160, 5, 256),
    (192, 3, 128),
    (224, 7, 256),
    (256, 1, 32),
    (320, 5, 128),
    (384, 3, 64),
    (448, 7, 128),
    (512, 1, 16),
    (640, 5, 64),
    (768, 3, 32),
    (896, 7, 64),
    (1024, 1, 8),
    (1280, 5, 32),
    (1536, 3, 16),
    (1792, 7, 32),
    (2048, 1, 4),
    (2560, 5, 16),
    (3072, 3, 8),
    (3584, 7, 16),
    (4096, 1, 2),
    (5120, 5, 8),
    (6144, 3, 4),
    (7168, 7, 8),
    (8192, 1, 1),
    (10240, 5, 4),
    (12288, 3, 2),
    (14336, 7, 4),
    (16384, 2, 1),
    (20480, 5, 2),
    (24576, 3, 1),
    (28672, 7, 2),
];

// The page classes, in pages. Those from the fourth on are the normal classes, from class 39 on.
const PAGES: [u32; 40] = [
    1, 2, 3, 4, 5, 6, 7, 8, 10, 12, 14, 16, 20, 24, 28, 32, 40, 48, 56, 64, 80, 96, 112, 128, 160,
    192, 224, 256, 320, 384, 448, 512, 640, 768, 896, 1024, 1280, 1536, 1792, 2048,
];

fn small_rows(rt: &impl Abort, classes: &SizeClasses) {
    for class in 0..39u32 {
        assert!(rt; class < classes.count() && classes.is_small(class));
        let size = classes.size_of(class);
        let pages = classes.subpage_pages(class);
        let found = (size, pages, 8192 * pages / size);
        assert!(rt; found == SMALL[class as usize], "class {class}");
    }
}

fn normal_rows(rt: &impl Abort, classes: &SizeClasses) {
    let count = classes.count();
    assert!(rt; count <= 76);
    for class in 39..count {
        assert!(rt; !classes.is_small(class));
        let pages = classes.pages_of(class);
        let size = 8192 * u64::from(pages);
        assert!(rt;
            u64::from(classes.size_of(class)) == size && pages == PAGES[class as usize - 36],
            "class {class}"
        );
    }
}

fn page_class_rows(rt: &impl Abort, classes: &SizeClasses, order: u32, page: u32)
    requires geometry { classes.now ≡ of_pages order page }
    requires order { (3 ≤ order) × (order ≤ 11) }
{
    for index in 0..4 * order - 4 {
        let pages = PAGES[index as usize];
        assert!(rt; 1 <= pages && pages <= 2u32.pow(order));
        let (up, down) = (classes.page_class_up(pages), classes.page_class_down(pages));
        assert!(rt; up == index && down == index, "{pages} pages");
    }
}

// All rows of a chunk of `2^order` pages of the default size, of which the last are the chunk.
fn rows(rt: &impl Abort, alloc: Global, order: u32)
    requires { IsGeometry (of_pages order 8192) }
{
    let classes = SizeClasses::new(alloc, order, DEFAULT_PAGE).expect(rt, "ample memory");
    small_rows(rt, &classes);
    normal_rows(rt, &classes);
    page_class_rows(rt, &classes, order, DEFAULT_PAGE);
    let last = 4 * order + 31;
    assert!(rt; classes.count() == last + 1 && classes.size_of(last) == 8192 * 2u32.pow(order));
}

#[test]
fn the_tables_of_three_orders(rt: HostRuntime) {
    rows(&rt, rt.alloc(), 3);
    rows(&rt, rt.alloc(), 9);
    rows(&rt, rt.alloc(), 11);
}

// Sizes of a chunk of 4 MiB, and the class of each.
const CLASSES: [(u32, u32); 4] = [(0, 0), (4096, 27), (4097, 28), (28673, 39)];

// The classes of a chunk of 4 MiB: how many are small, the pages of the last small one's subpage and of
// the first normal one, and the last class, beyond which there is none.
fn last_small(rt: &impl Abort, classes: &SizeClasses, small: u32) {
    assert!(rt; classes.count() == 68);
    assert!(rt; 0 < small && small < 68);
    assert!(rt; classes.is_small(small - 1));
    assert!(rt; !classes.is_small(small));
    assert!(rt;
        classes.small_count() == small
            && classes.subpage_pages(small - 1) == 7
            && classes.pages_of(small) == 4
            && classes.size_of(67) == 4194304
            && classes.class_of(4194304) == Some(67)
            && classes.class_of(4194305) == None
    );
}

#[test]
fn a_chunk_of_4_mib(rt: HostRuntime) {
    let least = SizeClasses::new(rt.alloc(), 10, 4096).expect(&rt, "ample memory");
    last_small(&rt, &least, 35);
    let most = SizeClasses::new(rt.alloc(), 7, 32768).expect(&rt, "ample memory");
    last_small(&rt, &most, 47);
    let classes = SizeClasses::new(rt.alloc(), 9, DEFAULT_PAGE).expect(&rt, "ample memory");
    last_small(&rt, &classes, 39);
    for (size, class) in CLASSES {
        assert!(rt; classes.class_of(size) == Some(class), "a size of {size}");
    }
    assert!(rt; classes.page_class_up(9) == 8 && classes.page_class_down(9) == 7);
}
