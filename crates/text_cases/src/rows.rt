//! Traces, and what each is read as, worked out by hand: a row has a text and what is told of it, with
//! ` => ` between them. What is refused stands in the examples.

/// Each command, and what names are; the most bytes that are asked; lanes that wait for one another.
pub const COMMANDS: &str = r#"[[]] => ||
[[],[]] => |||
[ [ ["touch" , "a"] , [ "touch","b" ] ] ] => |touch 0;touch 1;|
[[["alloc","a",24],["set","a",0,"68656C6c"],["tryset","a",1,""]]] => |alloc 0 24;set 0 0 68656c6c;tryset 0 1 ;|
[[["get","a",0,5],["tryget","a",4,1],["write","a","ff"],["read","a",2]]] => |get 0 0 5;tryget 0 4 1;write 0 ff;read 0 2;|
[[["slice","s","a",2,8],["rslice","t","s",1,2],["dup","d","a"]]] => |slice 0 1 2 8;rslice 2 0 1 2;dup 3 1;|
[[["retain","a"],["release","a"],["refcnt","s"],["touch","d"],["forget","a"]]] => |retain 0;release 0;refcnt 1;touch 2;forget 0;|
[[["send","a",0],["recv","r",0]]] => |send 0 0;recv 1 0;|
[[["send","a",1]],[["recv","a",0],["touch","b"]]] => |send 0 1;|recv 0 0;touch 1;|
[[["compose","c","b","a","b"],["touch","a"],["touch","c"]]] => |compose 0 1 2 1;touch 2;touch 0;|
[[["touch","b"],["compose","c","a","b"],["add","c","b"],["add","d","e"]]] => |touch 0;compose 1 2 0;add 1 0;add 3 4;|
[[["compose","c","c"],["add","c","c"]]] => |compose 0 0;add 0 0;|
[[["compose","z","a","b","c","d","e","f","g","h","i","j","k","l","m","n","o","p","q","r","s","t","u","v","w","x"]]] => |compose 0 1 2 3 4 5 6 7 8 9 10 11 12 13 14 15 16 17 18 19 20 21 22 23 24;|
[[["add","c","a"],["send","a",0],["recv","c",0]]] => |add 0 1;send 1 0;recv 0 0;|
[[["touch","\u0061"],["\u0074ouch","a"]]] => |touch 0;touch 0;|
[[["touch","a"],["touch","z"],["touch","0"],["touch","9"],["touch","_"]]] => |touch 0;touch 1;touch 2;touch 3;touch 4;|
[[["touch","abcdefghijklmnopqrstuvwxyz012345"]]] => |touch 0;|
[[["alloc","a",0],["alloc","b",4294967295]]] => |alloc 0 0;alloc 1 4294967295;|
[[["write","a","09afAF"]]] => |write 0 09afaf;|
[[["capacity","a",0],["alloc","b",1],["capacity","b",4294967295]]] => |capacity 0 0;alloc 1 1;capacity 1 4294967295;|
[[["touch","r"],["send","a",0],["recv","r",0]]] => |touch 0;send 1 0;recv 0 0;|
[[["send","a",0],["recv","r",0],["alloc","r",1]]] => |send 0 0;recv 1 0;alloc 1 1;|
[[["alloc","a",1],["send","a",1]],[["recv","a",0]]] => |alloc 0 1;send 0 1;|recv 0 0;|
[[["get","a",0,67108864]]] => |get 0 0 67108864;|
[[["tryget","a",0,67108863]],[["read","b",1]]] => |tryget 0 0 67108863;|read 0 1;|
[[["send","a",1],["recv","x",1]],[["recv","x",0],["send","x",0]]] => |send 0 1;recv 1 1;|recv 0 0;send 0 0;|
[[["send","a",1],["send","a",1]],[["recv","x",0],["recv","y",0]]] => |send 0 1;send 0 1;|recv 0 0;recv 1 0;|
"#;

/// Objects of version 2.
pub const VERSION_TWO: &str = r#"{"version":2,"lanes":[[]]} => ||
{"lanes":[[["touch","a"]],[]],"options":{},"version":2} => |touch 0;||
{"version":2,"options":{"page":4096},"lanes":[[]]} => || page 4096
{"version":2,"options":{"page":8192,"order":3},"lanes":[[]]} => || page 8192 order 3
{"version":2,"options":{"page":16384,"order":11},"lanes":[[]]} => || page 16384 order 11
{"version":2,"options":{"page":32768,"arenas":8,"chunks":8},"lanes":[[]]} => || page 32768 arenas 8 chunks 8
{"version":2,"options":{"arenas":1,"chunks":1,"handles":1,"interval":1},"lanes":[[]]} => || arenas 1 chunks 1 handles 1 interval 1
{"version":2,"options":{"handles":4096,"interval":65536},"lanes":[[]]} => || handles 4096 interval 65536
{"version":2,"options":{"level":"disabled"},"lanes":[[]]} => || level Disabled
{"version":2,"options":{"level":"simple"},"lanes":[[]]} => || level Simple
{"version":2,"options":{"level":"advanced"},"lanes":[[]]} => || level Advanced
{"version":2,"options":{"level":"paranoid"},"lanes":[[]]} => || level Paranoid
{"version":3,"version":2,"lanes":[[]]} => ||
"#;
