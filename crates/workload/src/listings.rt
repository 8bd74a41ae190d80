// The text of the workload's listing.
ghost use Rattle.std.specs.Prelude.{◌≡◌, ◌++◌, IfOk};
ghost use Rattle.workload.specs.Listings as spec;

use itoa::Buffer;
use std::alloc::{AllocError, Global};

// What stands before the number of nodes.
fn before() -> &'static str
    ensures { result.now ≡ spec.before }
{
    ".class Node\n\
        .super java/lang/Object\n\
        .field v I\n\
        .field next LNode;\n\
        .method <init> ()V 1 1\naload_0\ninvokespecial java/lang/Object <init> ()V\nreturn\n\
        .end\n\
        .class Adder\n\
        .super java/lang/Thread\n\
        .field t I\n\
        .field n I\n\
        .method <init> ()V 1 1\naload_0\ninvokespecial java/lang/Thread <init> ()V\nreturn\n\
        .end\n\
        .method run ()V 3 3\niconst_0\nistore_1\nADD:\niload_1\naload_0\ngetfield Adder n I\n\
        if_icmpge ADDED\nnew Node\ndup\ninvokespecial Node <init> ()V\nastore_2\naload_2\niload_1\n\
        iconst_4\nimul\naload_0\ngetfield Adder t I\niadd\nputfield Node v I\naload_2\n\
        getstatic Work table [LNode;\naload_0\ngetfield Adder t I\naaload\nputfield Node next LNode;\n\
        getstatic Work table [LNode;\naload_0\ngetfield Adder t I\naload_2\naastore\niinc 1 1\ngoto ADD\n\
        ADDED:\nreturn\n\
        .end\n\
        .class Work\n\
        .super java/lang/Object\n\
        .field table [LNode; static root\n\
        .method main ([Ljava/lang/String;)V 4 7 static\niconst_4\nanewarray Node\n\
        putstatic Work table [LNode;\niconst_4\nanewarray Adder\nastore_1\niconst_0\nistore_2\nSTART:\n\
        iload_2\niconst_4\nif_icmpge STARTED\nnew Adder\ndup\ninvokespecial Adder <init> ()V\nastore_3\n\
        aload_3\niload_2\nputfield Adder t I\naload_3\nsipush "
}

// What stands behind it.
fn behind() -> &'static str
    ensures { result.now ≡ spec.behind }
{
    "\nputfield Adder n I\naload_1\niload_2\naload_3\naastore\naload_3\ninvokevirtual Adder start ()V\n\
        iinc 2 1\ngoto START\nSTARTED:\niconst_0\nistore_2\nJOIN:\niload_2\niconst_4\nif_icmpge JOINED\n\
        aload_1\niload_2\naaload\ninvokevirtual Adder join ()V\niinc 2 1\ngoto JOIN\nJOINED:\niconst_0\n\
        istore 4\nlconst_0\nlstore 5\niconst_0\nistore_2\nLIST:\niload_2\niconst_4\nif_icmpge LISTED\n\
        getstatic Work table [LNode;\niload_2\naaload\nastore_3\nWALK:\naload_3\nifnull WALKED\niinc 4 1\n\
        lload 5\naload_3\ngetfield Node v I\ni2l\nladd\nlstore 5\naload_3\ngetfield Node next LNode;\n\
        astore_3\ngoto WALK\nWALKED:\niinc 2 1\ngoto LIST\nLISTED:\n\
        getstatic java/lang/System out Ljava/io/PrintStream;\niload 4\n\
        invokevirtual java/io/PrintStream println (I)V\n\
        getstatic java/lang/System out Ljava/io/PrintStream;\nlload 5\n\
        invokevirtual java/io/PrintStream println (J)V\nreturn\n\
        .end\n"
}

/// The listing of the workload with so many nodes a thread.
pub(crate) fn work_listing(alloc: Global, count: u32) -> Result<Vec<u8>, AllocError>
    ensures exact { IfOk result (λ text. text.items ≡ spec.work_listing count) }
{
    let mut text = Vec::new(alloc);
    text.extend_from_slice(before().as_bytes())?;
    let mut buffer = Buffer::new();
    text.extend_from_slice(buffer.format(count).as_bytes())?;
    text.extend_from_slice(behind().as_bytes())?;
    Ok(text)
}
