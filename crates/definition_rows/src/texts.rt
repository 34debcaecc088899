//! The text of each line: of replies, notes, chunks and leaks.

ghost use Rattle.std.specs.Prelude.{◌≡◌, [], ◌∷◌, true, false};
ghost use Rattle.pool_law.specs.declared.report.Access.{Access};
ghost use Rattle.pool_law.specs.declared.report.ListName.TheVariants.{QInit, Q000, Q025, Q050, Q075, Q100};
ghost use Rattle.pool_law.specs.Text.{text_of, reply_lines, note_lines, chunk_lines, leak_lines};
ghost use Rattle.definition_rows.specs.Notes.{lines, leak, chunk_end};
ghost use Rattle.definition_rows.specs.TextPlays.{commands, replies_to, arena_notes, cache_notes, bin_notes, mail_notes, root_notes, word_notes, marks, back_and_given, two_logs};

/// Each command and each reply.
pub fn replies()
    ensures text { reply_lines 2 9 commands replies_to ≡ lines
        ("2.9 alloc ok 32 0.1+64"
        ∷ "2.10 set ok"
        ∷ "2.11 tryset busy 7"
        ∷ "2.12 get ok 0aff"
        ∷ "2.13 tryget ok -"
        ∷ "2.14 write range"
        ∷ "2.15 read illegal"
        ∷ "2.16 slice unbound"
        ∷ "2.17 rslice taken"
        ∷ "2.18 dup composite"
        ∷ "2.19 retain ok"
        ∷ "2.20 release kept"
        ∷ "2.21 release freed"
        ∷ "2.22 refcnt ok 3"
        ∷ "2.23 touch ok"
        ∷ "2.24 forget ok"
        ∷ "2.25 send stopped"
        ∷ "2.26 recv nothing"
        ∷ "2.27 compose toolarge"
        ∷ "2.28 add plain"
        ∷ "2.29 alloc handles"
        ∷ "2.30 alloc full"
        ∷ []) }
{}

/// Notes at an arena, a cache, a bin and a mail.
pub fn notes_of_regions()
    ensures arena { note_lines 2 arena_notes ≡ lines
        ("note 2 arena 1 1 take 0 3+4096 257"
        ∷ "note 2 arena 1 2 full 39"
        ∷ "note 2 arena 1 3 give 3+4096 257"
        ∷ []) }
    ensures cache { note_lines 2 cache_notes ≡ lines
        ("note 2 cache 2 0 1 miss"
        ∷ "note 2 cache 2 0 2 kept 257"
        ∷ "note 2 cache 2 0 3 hit 257"
        ∷ "note 2 cache 2 0 4 back full 257"
        ∷ "note 2 cache 2 0 5 trim 12"
        ∷ "note 2 cache 2 0 6 shed 257"
        ∷ "note 2 cache 2 0 7 close 0"
        ∷ "note 2 cache 2 0 8 back closed 257"
        ∷ []) }
    ensures back_and_given { note_lines 0 back_and_given ≡ lines
        ("note 0 cache 0 0 514 back full 257"
        ∷ "note 0 arena 0 258 give 0+4096 257"
        ∷ []) }
    ensures bin { note_lines 2 bin_notes ≡ lines
        ("note 2 bin 2 1 handle 5"
        ∷ "note 2 bin 2 2 none"
        ∷ "note 2 bin 2 3 home 5"
        ∷ []) }
    ensures mail { note_lines 2 mail_notes ≡ lines
        ("note 2 mail 0 1 1 post 5.6 3+8 1 7"
        ∷ "note 2 mail 0 1 2 post empty"
        ∷ "note 2 mail 0 1 1 fetch 5.6 3+8 1 7"
        ∷ "note 2 mail 0 1 2 fetch empty"
        ∷ []) }
{}

/// Notes at a root place and on a word, and busy marks.
pub fn notes_of_roots()
    ensures root { note_lines 2 root_notes ≡ lines
        ("note 2 root 5 1 birth 6 1.3+4096 257 2 11"
        ∷ "note 2 root 5 2 set 3 0aff"
        ∷ "note 2 root 5 3 set 11 -"
        ∷ "note 2 root 5 4 get 3 0aff"
        ∷ "note 2 root 5 5 get 11 -"
        ∷ "note 2 root 5 6 touch"
        ∷ "note 2 root 5 7 end 6"
        ∷ []) }
    ensures word { note_lines 2 word_notes ≡ lines
        ("note 2 ref 5.6 born"
        ∷ "note 2 ref 5.6 retain"
        ∷ "note 2 ref 5.6 look 2"
        ∷ "note 2 ref 5.6 kept"
        ∷ "note 2 ref 5.6 ended"
        ∷ "note 2 ref 5.6 vacated"
        ∷ []) }
    ensures marks { note_lines 2 marks ≡ lines
        ("note 2 busy cache 0 39 12"
        ∷ "note 2 busy root 5 0"
        ∷ []) }
{}

/// Chunks in each list, and none.
pub fn chunks()
    ensures text { chunk_lines
        (chunk_end 0 QInit 0 65536
        ∷ chunk_end 1 Q000 16384 49152
        ∷ chunk_end 2 Q025 32768 32768
        ∷ chunk_end 3 Q050 49152 16384
        ∷ record (chunk_end 4 Q075 57344 8192) { arena = 1 }
        ∷ record (chunk_end 5 Q100 65536 0) { arena = 7 }
        ∷ []) ≡ lines
        ("chunk 0.0 qInit used 0 free 65536"
        ∷ "chunk 0.1 q000 used 16384 free 49152"
        ∷ "chunk 0.2 q025 used 32768 free 32768"
        ∷ "chunk 0.3 q050 used 49152 free 16384"
        ∷ "chunk 1.4 q075 used 57344 free 8192"
        ∷ "chunk 7.5 q100 used 65536 free 0"
        ∷ []) }
    ensures none { chunk_lines [] ≡ [] }
{}

/// Leaks, each with its accesses, the oldest first.
pub fn leaks()
    ensures text { leak_lines
        (leak 1 100 1 [] 0
        ∷ record
        (leak 3 11 4 (Access.Set 2 3 8 ∷ Access.Get 0 11 0 ∷ Access.Touch 15 ∷ []) 1) { lane = 2 }
        ∷ leak 2 0 1 [] 0
        ∷ []) ≡ lines
        ("leak 0.1 capacity 100 count 1 records 0 dropped 0"
        ∷ "leak 2.3 capacity 11 count 4 records 3 dropped 1"
        ∷ " 2 set 3+8"
        ∷ " 0 get 11+0"
        ∷ " 15 touch"
        ∷ "leak 0.2 capacity 0 count 1 records 0 dropped 0"
        ∷ []) }
    ensures none { leak_lines [] ≡ [] }
{}

/// The parts of a text in order: replies, notes where they are wanted, chunks, leaks, and the end.
pub fn parts_in_order()
    ensures text { text_of two_logs false ≡ lines
        ("0.0 alloc ok 16 0.0+0"
        ∷ "0.1 forget ok"
        ∷ "1.0 recv nothing"
        ∷ "chunk 0.0 qInit used 8192 free 4186112"
        ∷ "leak 0.1 capacity 4 count 1 records 1 dropped 0"
        ∷ " 0 touch"
        ∷ "end roots 1 live 1 leaks 1"
        ∷ []) }
    ensures history { text_of two_logs true ≡ lines
        ("0.0 alloc ok 16 0.0+0"
        ∷ "0.1 forget ok"
        ∷ "1.0 recv nothing"
        ∷ "note 0 root 0 1 birth 1 0.0+0 1 1 4"
        ∷ "note 1 mail 0 1 1 fetch empty"
        ∷ "chunk 0.0 qInit used 8192 free 4186112"
        ∷ "leak 0.1 capacity 4 count 1 records 1 dropped 0"
        ∷ " 0 touch"
        ∷ "end roots 1 live 1 leaks 1"
        ∷ []) }
{}
