//! The canonical texts of programs.
use crate::source::tokens_of;
use ec_base::Text;
use ec_print::print;
use ec_reader::read;
use std::alloc::{AllocError, Global};
use std::process::Abort;

/// A text, and what it is printed as.
type Row = (&'static str, &'static str);

/// What the program of a text is printed as, if it is one.
fn printed(alloc: Global, source: &str) -> Option<Text> {
    let tokens = tokens_of(alloc, source.as_bytes())?;
    let program = read(alloc, &tokens).ok()?;
    print(alloc, &program).ok()
}

/// A text between these.
fn between(alloc: Global, before: &str, text: &str, behind: &str) -> Result<String, AllocError> {
    let mut all = String::from_str(alloc, before)?;
    all.push_str(text)?;
    all.push_str(behind)?;
    Ok(all)
}

fn prints(rt: &impl Abort, alloc: Global, source: &str, expected: &str) -> Result<(), AllocError> {
    let text = printed(alloc, source).expect(rt, "no text is printed");
    let text = String::from_utf8_lossy(alloc, text.as_slice())?;
    assert_eq!(rt; text.as_str(), expected);
    Ok(())
}

/// Tests what stands in the braces of a function.
fn prints_statements(rt: &impl Abort, alloc: Global, rows: &[Row]) -> Result<(), AllocError> {
    for (source, expected) in rows {
        let source = between(alloc, "int f(){", source, "}")?;
        let expected = between(alloc, "int f ( ) {\n", expected, "}\n")?;
        prints(rt, alloc, source.as_str(), expected.as_str())?;
    }
    Ok(())
}

/// Tests expressions.
fn prints_values(rt: &impl Abort, alloc: Global, rows: &[Row]) -> Result<(), AllocError> {
    for (source, expected) in rows {
        let source = between(alloc, "int f(){return ", source, ";}")?;
        let expected = between(alloc, "int f ( ) {\nreturn ", expected, " ;\n}\n")?;
        prints(rt, alloc, source.as_str(), expected.as_str())?;
    }
    Ok(())
}

const OPERATORS: &[Row] = &[
    ("a+b", "a + b"),
    ("a-b", "a - b"),
    ("a*b", "a * b"),
    ("a/b", "a / b"),
    ("a%b", "a % b"),
    ("a&b", "a & b"),
    ("a|b", "a | b"),
    ("a^b", "a ^ b"),
    ("a<<b", "a << b"),
    ("a>>b", "a >> b"),
    ("a==b", "a == b"),
    ("a!=b", "a != b"),
    ("a<b", "a < b"),
    ("a<=b", "a <= b"),
    ("a>b", "a > b"),
    ("a>=b", "a >= b"),
    ("a&&b", "a && b"),
    ("a||b", "a || b"),
    ("-9223372036854775807", "- 9223372036854775807"),
    ("~!NULL", "~ ! NULL"),
];

#[test]
fn operators(rt: HostRuntime) -> Result<(), AllocError> {
    prints_values(&rt, rt.alloc(), OPERATORS)
}

const ACCESSES: &[Row] = &[
    ("*p", "* p"),
    ("p->next.keys[2]", "p -> next . keys [ 2 ]"),
    ("(a+b)*c", "( a + b ) * c"),
    ("valueof(&s)", "valueof ( & s )"),
    ("malloc(sizeof(int))", "malloc ( sizeof ( int ) )"),
    (
        "(int**)malloc(n*sizeof(int*))",
        "( int * * ) malloc ( n * sizeof ( int * ) )",
    ),
    (
        "(struct Node*)malloc(sizeof(struct Node*))",
        "( struct Node * ) malloc ( sizeof ( struct Node * ) )",
    ),
];

#[test]
fn accesses(rt: HostRuntime) -> Result<(), AllocError> {
    prints_values(&rt, rt.alloc(), ACCESSES)
}

const CALLS: &[Row] = &[
    (
        "g(1,a+b,NULL)@OWNER_OF(p)",
        "g ( 1 , a + b , NULL ) @ OWNER_OF ( p )",
    ),
    ("g()@HOME", "g ( ) @ HOME"),
    ("g()@NODE(3)", "g ( ) @ NODE ( 3 )"),
    ("g()@ANYWHERE", "g ( ) @ ANYWHERE"),
];

#[test]
fn calls(rt: HostRuntime) -> Result<(), AllocError> {
    prints_values(&rt, rt.alloc(), CALLS)
}

const SIMPLE: &[Row] = &[
    (";", ";\n"),
    ("return;", "return ;\n"),
    ("return 0;", "return 0 ;\n"),
    ("g();", "g ( ) ;\n"),
    ("x=x+1;", "x = x + 1 ;\n"),
    ("x++;", "x = x + 1 ;\n"),
    ("x--;", "x = x - 1 ;\n"),
    ("writeto(&s,1);", "writeto ( & s , 1 ) ;\n"),
    ("addto(&s,2);", "addto ( & s , 2 ) ;\n"),
    (
        "printf(\"say \\\"%d\\\"\\t\\\\ %d%d\\n\",1,a+b,NULL);",
        "printf ( \"say \\\"%d\\\"\\t\\\\ %d%d\\n\" , 1 , a + b , NULL ) ;\n",
    ),
    ("printf(\"\");", "printf ( \"\" ) ;\n"),
];

#[test]
fn simple_statements(rt: HostRuntime) -> Result<(), AllocError> {
    prints_statements(&rt, rt.alloc(), SIMPLE)
}

const COMPOUND: &[Row] = &[
    ("if(1)return;", "if ( 1 ) return ;\n"),
    ("if(1)return;else;", "if ( 1 ) return ;\nelse ;\n"),
    ("while(a<b){}", "while ( a < b ) {\n}\n"),
    ("{^g();x=x+1;^}", "{^\ng ( ) ;\nx = x + 1 ;\n^}\n"),
    ("for(;;);", "for ( ; ; ) ;\n"),
    ("for(x=0;1;x=2);", "for ( x = 0 ; 1 ; x = 2 ) ;\n"),
    (
        "forall(x=0;NULL;x=2)return;",
        "forall ( x = 0 ; NULL ; x = 2 ) return ;\n",
    ),
];

#[test]
fn statements_that_hold_others(rt: HostRuntime) -> Result<(), AllocError> {
    prints_statements(&rt, rt.alloc(), COMPOUND)
}

const PROGRAMS: &[Row] = &[
    ("int main(){return 0;}", "int main ( ) {\nreturn 0 ;\n}\n"),
    (
        "int main(void){int i,*p;}",
        "int main ( ) {\nint i ;\nint * p ;\n}\n",
    ),
    (
        "struct Node{struct Node*next;int keys[3];};void f(int i,local struct Node*p,shared int s){int i=5;local struct Node*p;shared int s;}",
        "struct Node {\nstruct Node * next ;\nint keys [ 3 ] ;\n}\n;\nvoid f ( int i , local struct Node * p , shared int s ) {\nint i = 5 ;\nlocal struct Node * p ;\nshared int s ;\n}\n",
    ),
];

#[test]
fn programs(rt: HostRuntime) -> Result<(), AllocError> {
    for (source, expected) in PROGRAMS {
        prints(&rt, rt.alloc(), source, expected)?;
    }
    Ok(())
}
