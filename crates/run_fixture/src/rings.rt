// A ring that runs make.

/// A ring of three nodes with the values 1, 2 and 3, made where `head` is null, and else walked once around, each value printed.
pub const RING: &str = ".class Node\n.super java/lang/Object\n.field v I\n.field next LNode;\n\
    .method <init> (ILNode;)V 2 3\naload_0\ninvokespecial java/lang/Object <init> ()V\n\
    aload_0\niload_1\nputfield Node v I\naload_0\naload_2\nputfield Node next LNode;\nreturn\n.end\n\
    .class Main\n.super java/lang/Object\n.field head LNode; static root\n\
    .method main ([Ljava/lang/String;)V 5 4 static\n\
    getstatic Main head LNode;\nifnonnull WALK\n\
    new Node\ndup\niconst_1\naconst_null\ninvokespecial Node <init> (ILNode;)V\nastore_1\n\
    new Node\ndup\niconst_2\naconst_null\ninvokespecial Node <init> (ILNode;)V\nastore_2\n\
    new Node\ndup\niconst_3\naconst_null\ninvokespecial Node <init> (ILNode;)V\nastore_3\n\
    aload_1\naload_2\nputfield Node next LNode;\n\
    aload_2\naload_3\nputfield Node next LNode;\n\
    aload_3\naload_1\nputfield Node next LNode;\n\
    aload_1\nputstatic Main head LNode;\nreturn\n\
    WALK:\ngetstatic Main head LNode;\nastore_1\niconst_3\nistore_2\n\
    STEP:\ngetstatic java/lang/System out Ljava/io/PrintStream;\naload_1\ngetfield Node v I\n\
    invokevirtual java/io/PrintStream println (I)V\n\
    aload_1\ngetfield Node next LNode;\nastore_1\n\
    iinc 2 -1\niload_2\nifgt STEP\nreturn\n.end\n";
