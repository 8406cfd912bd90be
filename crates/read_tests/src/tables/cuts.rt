//! Texts that are cut behind each token. Their tokens are separated by one blank each.

/// Texts of which no cut makes a module.
pub(crate) const OPEN: &str = r#"
source_filename = "a"
target triple = "a"
target datalayout = "a"
%t = type { i8 , [ 3 x <{ ptr , %u }> ] , { } , <{ }> }
%t = type <{ ptr , i8 }>
@a = private dso_local unnamed_addr constant { [ 2 x i8 ] , <{ ptr , i8 }> } { [ 2 x i8 ] [ i8 1 , i8 undef ] , <{ ptr , i8 }> <{ ptr @b , i8 zeroinitializer }> }
@a = internal hidden global [ 1 x ptr ] [ ptr getelementptr inbounds ( { i8 , i8 } , ptr @b , i64 0 , i32 -1 ) ]
@a = external protected coldcc global [ 2 x i8 ]
@a = constant i8 c"a"
@a = external constant ptr
@a = internal protected alias { i8 } ( i8 , [ 2 x ptr ] ) , ptr @b
@a = hidden alias void ( ) , getelementptr inbounds ( i8 , ptr @b , i64 -4 )
@a = alias ptr , ptr getelementptr ( i8 , ptr @b )
declare !a !b !c !d external hidden fastcc align 4 "k" = "v" #1 noundef { i8 } @f ( i8 align 8 "k" = "v" #2 noundef %x , [ 2 x ptr ] , ptr )
declare void @llvm.dbg.value ( metadata , i8 , metadata noundef %x )
define internal dso_local coldcc align 4 "k" = "v" #1 noundef <{ i8 }> @f ( ptr align 8 "k" = "v" #2 noundef %x , i8 ) unnamed_addr local_unnamed_addr align 4 "k" = "v" #3 nounwind !a !b { e: unreachable }
define void @f ( ) { add nuw nsw i8 %x , 1 , !a !b , !c !d %y = sub nsw i8 @a , true , !a !b mul nuw i8 null , undef , !a !b shl i8 poison , false , !a !b ret void }
define void @f ( ) { udiv exact i8 %x , 1 , !a !b %y = sdiv i8 @a , true , !a !b lshr exact i8 null , undef , !a !b ashr i8 poison , false , !a !b ret void }
define void @f ( ) { urem i8 1 , 2 , !a !b srem i8 1 , 2 , !a !b and ptr 1 , 2 , !a !b %x = or { i8 } 1 , 2 , !a !b xor i8 1 , 2 , !a !b ret void }
define void @f ( ) { add i8 getelementptr inbounds ( [ 2 x i8 ] , ptr @b , i64 0 , { i8 } -1 ) , getelementptr ( ptr , ptr @b ) ret void }
define void @f ( ) { icmp sle i8 1 , 2 %x = icmp eq [ 1 x i8 ] %y , 2 , !a !b select i1 %c , i8 1 , <{ ptr }> 2 , !a !b ret void }
define void @f ( ) { trunc i8 1 to i8 , !a !b %x = zext i8 1 to ptr , !a !b sext i8 1 to { i8 } , !a !b ret void }
define void @f ( ) { ptrtoint i8 1 to i8 , !a !b %x = inttoptr i8 1 to [ 1 x ptr ] , !a !b bitcast i8 1 to %t , !a !b freeze i8 1 , !a !b ret void }
define void @f ( ) { getelementptr i8 , ptr %p %x = getelementptr inbounds { i8 } , ptr %p , i64 0 , %t %i , !a !b ret void }
define void @f ( ) { load i8 , ptr %p %x = load [ 1 x i8 ] , ptr %p , align 4 , !a !b , !c !d load i8 , i8 1 , !a !b ret void }
define void @f ( ) { store i8 1 , ptr %p , align 4 , !a !b , !c !d store { i8 } undef , %t 1 , !a !b store i8 1 , ptr %p ret void }
define void @f ( ) { alloca i8 %x = alloca { i8 } , i64 4 , align 8 , !a !b alloca i8 , align 1 alloca i8 , [ 1 x i8 ] 1 , !a !b alloca i8 , !a !b ret void }
define void @f ( ) { tail call fastcc ccc align 4 "k" = "v" #1 noundef i8 ( i8 , [ 2 x ptr ] ) @f ( i8 align 8 "k" = "v" #2 noundef %x , ptr @a ) align 4 "k" = "v" #3 nounwind , !a !b ret void }
define void @f ( ) { %x = notail call void @f ( ) call { i8 } ( ) @f ( ptr getelementptr ( i8 , ptr @b ) ) #1 , !a !b ret void }
define void @f ( ) { call void @llvm.dbg.value ( metadata !0 , metadata i8 1 , metadata { i8 } undef , i8 noundef 1 ) ret void }
define void @f ( ) { ret void , !a !b ret { i8 } undef ret i8 1 , !a !b , !c !d unreachable unreachable , !a !b }
define void @f ( ) { br label %a a: br label %b , !a !b b: br i1 %c , label %a , label %b br { i8 } undef , label %a , label %b , !a !b }
define void @f ( ) { switch i8 1 , label %a [ ] switch { i8 } undef , label %a [ i8 1 , label %b [ 1 x i8 ] 2 , label %c ] , !a !b }
define void @f ( ) { br label %b b: phi i8 [ 1 , %e ] %x = phi { i8 } [ undef , %e ] , [ getelementptr ( i8 , ptr @b ) , %f ] , !a !b , !c !d %y = add i8 1 , 2 ret void }
"#;

/// The same, in which some brackets hold any tokens.
pub(crate) const HELD: &str = r#"
attributes #0 = { ( [ { <{ 1 , }> } ] ) * half }
!0 = distinct ! { ( [ { <{ !1 }> } ] ) | i65 }
declare foo ( 1 , ( ) [ ] { } <{ }> ) void @f ( i8 foo ( ( 8 ) ) )
define foo ( ( 1 ) ) void @f ( i8 foo ( [ ] ) %x ) foo ( <{ }> { } ) { unreachable }
define void @f ( ) { call foo ( ( 1 ) ) void @f ( i8 foo ( [ ] ) 1 ) foo ( { <{ }> } ) ret void }
define void @f ( ) { call void @llvm.dbg.value ( metadata !D ( ( a ) , [ ] ) , metadata ! { { } , <{ ( ) }> } ) ret void }
"#;

/// Texts of which some cuts make a module.
pub(crate) const LONG: &str = r#"
@a = global i8 0 , align 4 , !a !b #1 , align -1 #2
@a = external constant i8 #1 , !a !b , align 4
declare void @f ( ) align 4 "k" = "v" "k" #1 nounwind unnamed_addr local_unnamed_addr
!0 = distinct !D !1 = !"a" !2 = !D %t = type { } source_filename = "a" target triple = "b" @a = alias i8 , ptr @b @c = global i8 1 declare void @f ( ) define void @g ( ) { ret void }
"#;
